//! Breadth-first search from all modes of a component at once. A level has for each mode the set of modes that so many
//! moves at most lead to; the next level comes by one pass over the moves, and the search ends where nothing is new.

ghost use Rattle.std.specs.Prelude.{◌≡◌, ◌+◌, ◌*◌, ◌<◌, ◌≤◌, length};
ghost use Rattle.cca_base.specs.declared.limits.TheConstants.{MAX_CHOICES};
ghost use Rattle.reversibility.specs.Levels.{AreMovesWithin, MoveLeads, AreLevels, AreEnough, IsLevel, IsExpanded};

use bounded_list::{BoundedList, BoundedRows};
use cca_base::{Model, ValueSet};

/// Each mode leads to itself.
fn write_first(model: &Model, numbers: &[u16], modes: usize, level: &mut BoundedList<ValueSet>)
    requires few { modes ≤ MAX_CHOICES }
    requires room { modes ≤ level.old.room }
    ensures level { IsLevel (MoveLeads model.now numbers.now (length numbers.now)) modes 0 level.new.items }
    ensures room { level.new.room ≡ level.old.room }
{
    level.clear();
    for a in 0..modes {
        level.push(ValueSet::empty().with(a as u8));
    }
}

/// Writes what one of the moves more leads to.
fn expand(model: &Model, numbers: &[u16], level: &[ValueSet], next: &mut BoundedList<ValueSet>)
    requires within { AreMovesWithin model.now (length level.now) numbers.now }
    requires room { length level.now ≤ next.old.room }
    ensures expanded { IsExpanded (MoveLeads model.now numbers.now (length numbers.now)) level.now next.new.items }
    ensures room { next.new.room ≡ next.old.room }
{
    next.clear();
    next.push_all(level);
    let moves = model.moves();
    for k in 0..numbers.len() {
        let m = moves.get(numbers[k] as usize);
        let set = next.get(m.source as usize).union(level[m.target as usize]);
        next.set(m.source as usize, set);
    }
}

/// Writes what so many of the moves lead to, from 0 moves on, until one move more leads to nothing new.
pub(crate) fn write_levels(
    model: &Model,
    numbers: &[u16],
    modes: usize,
    next: &mut BoundedList<ValueSet>,
    levels: &mut BoundedRows<ValueSet>,
)
    requires few { modes ≤ MAX_CHOICES }
    requires within { AreMovesWithin model.now modes numbers.now }
    requires next { MAX_CHOICES ≤ next.old.room }
    requires room { (MAX_CHOICES + 1) * MAX_CHOICES ≤ levels.old.room }
    requires most { MAX_CHOICES + 1 ≤ levels.old.most }
    ensures levels { AreLevels (MoveLeads model.now numbers.now (length numbers.now)) modes levels.new.rows }
    ensures enough { AreEnough (MoveLeads model.now numbers.now (length numbers.now)) modes levels.new.rows }
    ensures some { 0 < length levels.new.rows }
    ensures short { length levels.new.rows ≤ modes + 1 }
    ensures next { next.new.room ≡ next.old.room }
    ensures room { levels.new.room ≡ levels.old.room }
    ensures most { levels.new.most ≡ levels.old.most }
{
    write_first(model, numbers, modes, next);
    levels.clear();
    levels.push(next.as_slice());
    for k in 0..modes {
        let level = levels.get(k);
        expand(model, numbers, level, next);
        if next.as_slice() == level {
            return;
        }
        levels.push(next.as_slice());
    }
}
