//! What one component's steps cost at least from the anchor to each mode before each record, from the first record to the last.

ghost use Rattle.std.specs.Prelude.{◌≡◌, ◌<◌, ◌≤◌, ◌+◌, ◌*◌, ℕ, None, Some, length, slice_index_or};
ghost use Rattle.cca_base.specs.Prelude.{HasMode};
ghost use Rattle.cca_base.specs.declared.limits.TheConstants.{MAX_CHOICES, MAX_COST};
ghost use Rattle.trajectory_estimator.specs.Asked.{Asked};
ghost use Rattle.trajectory_estimator.specs.Rests.{AreHeads, AreRests, AtMost, IsAhead, IsNoMore, IsTaken, KeepsRows, modes_of, row_at};
ghost use Rattle.trajectory_estimator.specs.Steps.{AreCheap, IsLeaving, IsStep};
ghost use Rattle.trajectory_estimator.specs.Windows.{room_of};
ghost use Rattle.trajectory_estimator.specs.declared.record.TheConstants.{MAX_WINDOW};
ghost use Rattle.trajectory_estimator.specs.declared.step.Ahead.{Ahead};
ghost use Rattle.trajectory_estimator.specs.declared.step.Step.{Step};

use crate::component_query::ComponentQuery;
use crate::leaving::Leaving;
use crate::rests::{put, row_of};
use crate::step::{Ahead, Step, step_to};
use cca_base::{List, MAX_CHOICES};

/// No more than either cost, of which the first may be missing.
pub(crate) fn with_cost(least: Option<u64>, cost: u64) -> Option<u64>
    ensures here { (most : ℕ) → cost ≤ most → AtMost result most }
    ensures kept { (most : ℕ) → AtMost least most → AtMost result most }
{
    match least {
        None => Some(cost),
        Some(other) => Some(cost.min(other)),
    }
}

/// Takes a step behind its head into the row before a record.
fn take_head(room: &mut List<Option<u64>>, at: usize, head: u64, step: Step)
    requires row { (at + 1) * MAX_CHOICES ≤ length room.old }
    requires mode { step.to < MAX_CHOICES }
    ensures kept { KeepsRows at room.old room.new }
    ensures less { IsNoMore (row_at room.old at) (row_at room.new at) }
    ensures taken { IsTaken (row_at room.new at) head step }
{
    let to = step.to as usize;
    let least = with_cost(row_of(room, at)[to], head.saturating_add(step.own));
    put(room, at, to, least);
}

/// Takes the steps from a mode behind its head into the row before a record.
fn take_heads(
    room: &mut List<Option<u64>>,
    at: usize,
    head: u64,
    leaving: &Leaving<'_>,
    ahead: &Ahead<'_>,
)
    requires row { (at + 1) * MAX_CHOICES ≤ length room.old }
    requires few { length leaving.now.failures.now ≤ MAX_CHOICES }
    requires rests { length ahead.now.rests.now ≡ MAX_CHOICES }
    requires cheap { AreCheap (length leaving.now.failures.now) (MAX_WINDOW * MAX_COST) ahead.now.rests.now }
    ensures kept { KeepsRows at room.old room.new }
    ensures less { IsNoMore (row_at room.old at) (row_at room.new at) }
    ensures taken { (q : Asked) (c tick : ℕ) → IsLeaving q c tick leaving.now → (s : Step) →
        IsStep q c tick leaving.now.from ahead.now s → IsTaken (row_at room.new at) head s }
{
    for to in 0..leaving.failures.len() {
        let to = to as u8;
        if let Some(step) = step_to(leaving, ahead, to) {
            take_head(room, at, head, Step { to, ..step });
        }
    }
}

/// Clears the row before a record for so many modes; no other row is changed.
fn clear_row(room: &mut List<Option<u64>>, at: usize, modes: usize)
    requires row { (at + 1) * MAX_CHOICES ≤ length room.old }
    requires modes { modes ≤ MAX_CHOICES }
    ensures { KeepsRows at room.old room.new }
{
    for mode in 0..modes {
        put(room, at, mode, None);
    }
}

/// Writes the row behind a record, by that before it.
fn fill_behind(
    asked: &ComponentQuery<'_>,
    at: usize,
    behind: &[Option<u64>],
    room: &mut List<Option<u64>>,
)
    requires at { at < length asked.now.query.now.records }
    requires full { length room.old ≡ room_of asked.now.query.now }
    requires rests { length behind.now ≡ MAX_CHOICES }
    requires cheap { AreCheap (modes_of asked.now) (MAX_WINDOW * MAX_COST) behind.now }
    ensures kept { KeepsRows (at + 1) room.old room.new }
    ensures taken { (ahead : Ahead) (from head : ℕ) (s : Step) → IsAhead asked.now at behind.now ahead → HasMode asked.now.query.now.model asked.now.component from
        → slice_index_or (row_at room.old at) from None ≡ Some head → IsStep asked.now.query.now asked.now.component at from ahead s → IsTaken (row_at room.new (at + 1)) head s }
{
    clear_row(room, at + 1, asked.modes());
    let ahead = asked.ahead(at, behind);
    for from in 0..asked.modes() {
        if let Some(head) = row_of(room, at)[from] {
            let leaving = Leaving::of(asked.query, asked.component, at, from as u8);
            take_heads(room, at + 1, head, &leaving, &ahead);
        }
    }
}

/// Writes that the anchor's mode costs nothing before the first record.
fn fill_first(asked: &ComponentQuery<'_>, room: &mut List<Option<u64>>)
    requires { length room.old ≡ room_of asked.now.query.now }
    ensures { AreHeads asked.now 0 room.new }
{
    clear_row(room, 0, asked.modes());
    put(room, 0, asked.anchor() as usize, Some(0));
}

/// Writes what comes before each record.
pub(crate) fn fill_heads(
    asked: &ComponentQuery<'_>,
    rests: &List<Option<u64>>,
    room: &mut List<Option<u64>>,
)
    requires rests { AreRests asked.now rests.now }
    requires full { length room.old ≡ room_of asked.now.query.now }
    ensures { AreHeads asked.now (length asked.now.query.now.records) room.new }
{
    fill_first(asked, room);
    for at in 0..asked.query.records().len() {
        fill_behind(asked, at, row_of(rests, at + 1), room);
    }
}
