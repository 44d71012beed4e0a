//! Which moves are open: those that have a prime implicant inside the classes.

ghost use Rattle.std.specs.Prelude.{◌≡◌, ◌↔◌, ◌<◌, ◌≤◌, IsTrue, All, length};
ghost use Rattle.cca_base.specs.declared.limits.TheConstants.{MAX_MOVES};
ghost use Rattle.reach_laws.specs.Classes.{AreInside};
ghost use Rattle.reversibility.specs.Levels.{AreOpenMoves, SomeInside};
ghost use Rattle.reversibility.specs.ClassParts.{in_row};
ghost use Rattle.reversibility.specs.Chains.{LeavesMode, IsOpenChain};

use bounded_list::BoundedList;
use cca_base::{Compiled, Cube, MAX_CHOICES, Pair, ValueSet};

/// Whether each pair of the cube is in the sets.
pub fn is_inside(cube: &[Pair], rows: &[ValueSet]) -> bool
    requires { All (λ p. p.item < length rows.now) cube.now }
    ensures { IsTrue result ↔ AreInside (in_row rows.now) cube.now }
{
    for pair in cube {
        if !rows[pair.item as usize].has(pair.value) {
            return false;
        }
    }
    true
}

/// Whether one of the cubes is in the sets.
fn is_open(cubes: &[Cube], rows: &[ValueSet]) -> bool
    requires { All (λ cube. All (λ p. p.item < length rows.now) cube) cubes.now }
    ensures { IsTrue result ↔ SomeInside (in_row rows.now) cubes.now }
{
    for cube in cubes {
        if is_inside(cube.as_slice(), rows) {
            return true;
        }
    }
    false
}

/// Whether an open move of the component leaves the mode.
fn leaves(compiled: &Compiled, rows: &[ValueSet], component: u16, mode: u8) -> bool
    requires component { component < length compiled.now.model.components }
    requires full { length rows.now ≡ length compiled.now.model.components }
    ensures { IsTrue result ↔ LeavesMode compiled.now.model (in_row rows.now) component mode }
{
    let model = compiled.model();
    let moves = model.moves();
    for number in model.moves_of(component) {
        let i = *number as usize;
        if moves.get(i).source == mode && is_open(compiled.ways().get(i).as_slice(), rows) {
            return true;
        }
    }
    false
}

/// The broken modes on the way from a mode along open repairs.
pub(crate) fn open_chain(
    compiled: &Compiled,
    rows: &[ValueSet],
    component: u16,
    mode: u8,
) -> ValueSet
    requires component { component < length compiled.now.model.components }
    requires full { length rows.now ≡ length compiled.now.model.components }
    ensures { IsOpenChain compiled.now.model (in_row rows.now) component mode result }
{
    let model = compiled.model();
    let _moves = model.moves();
    let mut chain = ValueSet::empty();
    let mut at = mode;
    for taken in 0..MAX_CHOICES {
        match model.next_mode(component, at) {
            None => return chain,
            Some(next) => {
                chain = chain.with(at);
                if !leaves(compiled, rows, component, at) {
                    return chain;
                }
                at = next;
            }
        }
    }
    unreachable!()
}

/// Writes the numbers of the component's open moves, rising.
pub(crate) fn write_open_moves(
    compiled: &Compiled,
    rows: &[ValueSet],
    component: u16,
    numbers: &mut BoundedList<u16>,
)
    requires component { component < length compiled.now.model.components }
    requires full { length rows.now ≡ length compiled.now.model.components }
    requires room { MAX_MOVES ≤ numbers.old.room }
    ensures numbers { AreOpenMoves compiled.now.model (in_row rows.now) component numbers.new.items }
    ensures room { numbers.new.room ≡ numbers.old.room }
{
    let model = compiled.model();
    let _moves = model.moves();
    numbers.clear();
    for number in model.moves_of(component) {
        if is_open(compiled.ways().get(*number as usize).as_slice(), rows) {
            numbers.push(*number);
        }
    }
}
