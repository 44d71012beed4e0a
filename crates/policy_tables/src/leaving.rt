//! The open moves of a component that leave one mode, each with the prime implicant that it waits for.

ghost use Rattle.std.specs.Prelude.{◌≡◌, ◌<◌, ◌≤◌, ℕ, AllPairs, IfOk, length, slice_index};
ghost use Rattle.cca_base.specs.Prelude.{AreExactly};
ghost use Rattle.cca_base.specs.declared.limits.TheConstants.{MAX_MOVES};
ghost use Rattle.policy_tables.specs.Codes.{AreSorted};
ghost use Rattle.policy_tables.specs.Leaving.{AreWaysTo, IsLeavingOf, IsOpenAt, LeavesMode};
ghost use Rattle.reversibility.specs.Levels.{AreMovesWithin, IsAmong};
ghost use Rattle.reversibility.specs.ClassParts.{in_row};
ghost use Rattle.reversibility.specs.Paths.{ArePaths};

use crate::ways::way_of;
use bounded_list::BoundedList;
use cca_base::{Compiled, Cube, List, MAX_MOVES, Model, ValueSet};
use reversibility::{Classes, Paths};
use std::alloc::{AllocError, Global};

/// The open moves of a component that leave one of its modes, in room that is made once for all.
#[derive(Debug, Drop)]
pub(crate) struct Leaving {
    /// The component.
    pub component: u16,
    /// The mode that they leave.
    pub mode: u8,
    /// The numbers of the moves, rising.
    pub numbers: BoundedList<u16>,
    /// Which of its prime implicants each of them waits for.
    pub ways: BoundedList<usize>,
}

/// Writes those of the moves that leave the mode.
fn write_leaving(model: &Model, numbers: &[u16], from: u8, leaving: &mut BoundedList<u16>)
    requires within { (n : ℕ) × AreMovesWithin model.now n numbers.now }
    requires rising { AllPairs (λ u v. u < v) numbers.now }
    requires room { length numbers.now ≤ leaving.old.room }
    ensures numbers { AreExactly (λ i.
        IsAmong numbers.now (length numbers.now) i × LeavesMode model.now from i) leaving.new.items }
    ensures room { leaving.new.room ≡ leaving.old.room }
{
    let moves = model.moves();
    leaving.clear();
    for k in 0..numbers.len() {
        if moves.get(numbers[k] as usize).source == from {
            leaving.push(numbers[k]);
        }
    }
}

/// Writes which of its prime implicants each of the open moves waits for.
fn write_ways(
    compiled: &Compiled,
    ways: &List<List<Cube>>,
    rows: &[ValueSet],
    numbers: &[u16],
    chosen: &mut BoundedList<usize>,
)
    requires ways { AreSorted compiled.now ways.now }
    requires rows { length rows.now ≡ length compiled.now.model.components }
    requires opens { (k : ℕ) → k < length numbers.now →
        IsOpenAt compiled.now.model (in_row rows.now) (slice_index numbers.now k) }
    requires room { length numbers.now ≤ chosen.old.room }
    ensures ways { AreWaysTo compiled.now ways.now (in_row rows.now) numbers.now chosen.new.items (length numbers.now) }
    ensures room { chosen.new.room ≡ chosen.old.room }
{
    chosen.clear();
    for k in 0..numbers.len() {
        chosen.push(way_of(compiled, ways, rows, numbers[k]));
    }
}

impl Leaving {
    /// Room for the moves of any mode. The error is out of memory.
    pub fn with_room(alloc: Global) -> Result<Leaving, AllocError>
        ensures numbers { IfOk result (λ l. l.numbers.room ≡ MAX_MOVES) }
        ensures ways { IfOk result (λ l. l.ways.room ≡ MAX_MOVES) }
    {
        Ok(Leaving {
            component: 0,
            mode: 0,
            numbers: BoundedList::with_room(alloc, MAX_MOVES)?,
            ways: BoundedList::with_room(alloc, MAX_MOVES)?,
        })
    }

    /// Finds the open moves that leave a mode of a component, by what is known of the component.
    pub fn find(
        &mut self,
        classes: &Classes,
        ways: &List<List<Cube>>,
        paths: &Paths,
        component: u16,
        from: u8,
    )
        requires ways { AreSorted classes.now.compiled ways.now }
        requires paths { ArePaths classes.now.compiled.model (in_row classes.now.rows) component paths.now }
        requires numbers { self.old.numbers.room ≡ MAX_MOVES }
        requires chosen { self.old.ways.room ≡ MAX_MOVES }
        ensures leaving { IsLeavingOf classes.now.compiled ways.now (in_row classes.now.rows) self.new }
        ensures component { self.new.component ≡ component }
        ensures mode { self.new.mode ≡ from }
        ensures numbers { self.new.numbers.room ≡ MAX_MOVES }
        ensures chosen { self.new.ways.room ≡ MAX_MOVES }
    {
        let compiled = classes.compiled();
        write_leaving(compiled.model(), paths.numbers(), from, &mut self.numbers);
        let numbers = self.numbers.as_slice();
        write_ways(compiled, ways, classes.rows(), numbers, &mut self.ways);
        self.component = component;
        self.mode = from;
    }
}
