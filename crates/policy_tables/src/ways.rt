//! What a move waits for: its first prime implicant inside the classes, effects before their causes.

ghost use Rattle.std.specs.Prelude.{◌≡◌, ◌<◌, ℕ, [], IfOk, MatchOption, All, length, slice_index_or};
ghost use Rattle.cca_base.specs.Prelude.{IsSorted};
ghost use Rattle.policy_tables.specs.Codes.{AreSorted};
ghost use Rattle.policy_tables.specs.Leaving.{IsFirstInside, IsOpenAt, IsWayOf};
ghost use Rattle.reach_laws.specs.Classes.{AreInside};
ghost use Rattle.reversibility.specs.ClassParts.{in_row};

use causal_graph::sort_goal;
use cca_base::{Compiled, Cube, List, ValueSet};
use reversibility::is_inside;
use std::alloc::{AllocError, Global};

/// The first of the cubes that is in the sets.
fn first_cube(cubes: &[Cube], rows: &[ValueSet]) -> Option<usize>
    requires { All (λ cube. All (λ p. p.item < length rows.now) cube) cubes.now }
    ensures { MatchOption result
        (All (λ cube. AreInside (in_row rows.now) cube → ⊥) cubes.now)
        (IsFirstInside (in_row rows.now) cubes.now) }
{
    for i in 0..cubes.len() {
        if is_inside(cubes[i].as_slice(), rows) {
            return Some(i);
        }
    }
    None
}

/// A cube of the same pairs, effects before their causes.
fn effects_first(alloc: Global, compiled: &Compiled, cube: &Cube) -> Result<Cube, AllocError>
    requires { All (λ p. p.item < length compiled.now.model.components) cube.now }
    ensures { IfOk result (IsSorted compiled.now.order cube.now) }
{
    let _order = compiled.order();
    if cube.len() < 2 {
        return cube.copy(alloc);
    }
    let pairs = List::of(Vec::from_slice(alloc, cube.as_slice())?);
    let goal = sort_goal(alloc, compiled, &pairs)?;
    let mut sorted = Cube::new(alloc);
    for pair in goal.pairs.as_slice() {
        sorted.push(*pair)?;
    }
    Ok(sorted)
}

/// The prime implicants of a move, each effects first.
fn sorted_row(alloc: Global, compiled: &Compiled, cubes: &[Cube]) -> Result<List<Cube>, AllocError>
    requires { All (λ cube. All (λ p. p.item < length compiled.now.model.components) cube) cubes.now }
    ensures full { IfOk result (λ l. length l ≡ length cubes.now) }
    ensures each { IfOk result (λ l. (k : ℕ) → k < length cubes.now →
        IsSorted compiled.now.order (slice_index_or cubes.now k []) (slice_index_or l k [])) }
{
    let mut row = List::new(alloc);
    for cube in cubes {
        row.push(effects_first(alloc, compiled, cube)?)?;
    }
    Ok(row)
}

/// The prime implicants of all moves, each effects first. The error is out of memory.
pub(crate) fn sorted_ways(
    alloc: Global,
    compiled: &Compiled,
) -> Result<List<List<Cube>>, AllocError>
    ensures { IfOk result (AreSorted compiled.now) }
{
    let mut ways = List::new(alloc);
    for i in 0..compiled.ways().len() {
        ways.push(sorted_row(alloc, compiled, compiled.ways().get(i).as_slice())?)?;
    }
    Ok(ways)
}

/// Which of an open move's prime implicants it waits for.
pub(crate) fn way_of(
    compiled: &Compiled,
    ways: &List<List<Cube>>,
    rows: &[ValueSet],
    number: u16,
) -> usize
    requires ways { AreSorted compiled.now ways.now }
    requires rows { length rows.now ≡ length compiled.now.model.components }
    requires opens { IsOpenAt compiled.now.model (in_row rows.now) number }
    ensures { IsWayOf compiled.now ways.now (in_row rows.now) number result }
{
    let cubes = compiled.ways().get(number as usize);
    let Some(way) = first_cube(cubes.as_slice(), rows) else {
        unreachable!()
    };
    way
}
