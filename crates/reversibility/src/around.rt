//! The class of a component: the strongly connected component of its home among the modes that open moves lead to.

ghost use Rattle.std.specs.Prelude.{◌≡◌, ◌<◌, ◌≤◌, ◌↔◌, ℕ, IfSome, IsNone, IsTrue, MatchOption, length};
ghost use Rattle.cca_base.specs.Prelude.{HasMode};
ghost use Rattle.cca_base.specs.declared.limits.TheConstants.{MAX_CHOICES};
ghost use Rattle.reversibility.specs.Homes.{IsAround, IsHomeBy, IsHomeFrom, IsClassFrom};
ghost use Rattle.reversibility.specs.Levels.{AreMovesWithin, MoveLeads};
ghost use Rattle.reversibility.specs.ClassParts.{in_row};

use crate::paths::Paths;
use cca_base::{Compiled, MAX_CHOICES, Model, ValueSet};

/// Whether one of the moves leads from the one mode to the other.
fn leads(model: &Model, numbers: &[u16], from: u8, to: u8) -> bool
    requires { (n : ℕ) × AreMovesWithin model.now n numbers.now }
    ensures { IsTrue result ↔ MoveLeads model.now numbers.now (length numbers.now) from to }
{
    let moves = model.moves();
    for k in 0..numbers.len() {
        let m = moves.get(numbers[k] as usize);
        if m.source == from && m.target == to {
            return true;
        }
    }
    false
}

/// The home of a mode by the open moves: the first along its repairs that is not broken.
fn home_of(model: &Model, numbers: &[u16], component: u16, mode: u8) -> Option<u8>
    requires { (n : ℕ) × AreMovesWithin model.now n numbers.now }
    ensures { MatchOption result
        ((a : ℕ) → IsHomeBy model.now.moves (MoveLeads model.now numbers.now (length numbers.now))
        component mode a → ⊥)
        (IsHomeBy model.now.moves (MoveLeads model.now numbers.now (length numbers.now)) component
        mode) }
{
    let _moves = model.moves();
    let mut at = mode;
    for taken in 0..MAX_CHOICES {
        match model.next_mode(component, at) {
            None => return Some(at),
            Some(next) => {
                if !leads(model, numbers, at, next) {
                    return None;
                }
                at = next;
            }
        }
    }
    unreachable!()
}

/// The modes that are joined both ways with the home.
fn around(closed: &[ValueSet], home: u8) -> ValueSet
    requires few { length closed.now ≤ MAX_CHOICES }
    requires within { home < length closed.now }
    ensures { IsAround closed.now home (length closed.now) result }
{
    let mut all = ValueSet::empty();
    for x in 0..closed.len() {
        if closed[home as usize].has(x as u8) && closed[x].has(home) {
            all = all.with(x as u8);
        }
    }
    all
}

/// The class of a component around a mode, where the classes of what it needs are there.
pub(crate) fn class_around(
    compiled: &Compiled,
    rows: &[ValueSet],
    component: u16,
    mode: u8,
    paths: &mut Paths,
) -> Option<ValueSet>
    requires within { component < length compiled.now.model.components }
    requires full { length rows.now ≡ length compiled.now.model.components }
    requires mode { HasMode compiled.now.model component mode }
    ensures some { IfSome result (IsClassFrom compiled.now.model (in_row rows.now) component mode) }
    ensures none { IsNone result → (a : ℕ) → IsHomeFrom compiled.now.model (in_row rows.now) component mode a → ⊥ }
{
    paths.find(compiled, rows, component);
    let home = home_of(compiled.model(), paths.numbers(), component, mode)?;
    let closed = paths.level(paths.height() - 1);
    Some(around(closed, home))
}
