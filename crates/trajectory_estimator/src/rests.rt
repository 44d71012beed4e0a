//! What one component's steps cost at least from each mode before each record to the end, from the last record to the first (Bellman).

ghost use Rattle.std.specs.Prelude.{◌≡◌, ◌≢◌, ◌<◌, ◌≤◌, ◌+◌, ◌*◌, ℕ, IfSome, Option, None, Some, length, slice_index_or};
ghost use Rattle.cca_base.specs.Prelude.{HasMode};
ghost use Rattle.cca_base.specs.declared.limits.TheConstants.{MAX_CHOICES, MAX_COST};
ghost use Rattle.trajectory_estimator.specs.Rests.{AreRests, AreTotals, IsLeastFrom, KeepsRows, MayStand, modes_of, row_at, total_of};
ghost use Rattle.trajectory_estimator.specs.Steps.{AreCheap};
ghost use Rattle.trajectory_estimator.specs.Windows.{room_of};
ghost use Rattle.trajectory_estimator.specs.declared.record.TheConstants.{MAX_WINDOW};
ghost use Rattle.trajectory_estimator.specs.declared.step.Step.{Step};

use crate::component_query::ComponentQuery;
use crate::leaving::Leaving;
use crate::step::{Step, least_step};
use cca_base::{List, MAX_CHOICES};

/// The row of numbers before a record.
pub(crate) fn row_of(room: &List<Option<u64>>, at: usize) -> &[Option<u64>]
    requires { (at + 1) * MAX_CHOICES ≤ length room.now }
    ensures row { result.now ≡ row_at room.now at }
    ensures full { length result.now ≡ MAX_CHOICES }
{
    &room.as_slice()[at * MAX_CHOICES..at * MAX_CHOICES + MAX_CHOICES]
}

/// Puts a number in the row before a record.
pub(crate) fn put(room: &mut List<Option<u64>>, at: usize, mode: usize, cost: Option<u64>)
    requires row { (at + 1) * MAX_CHOICES ≤ length room.old }
    requires mode { mode < MAX_CHOICES }
    ensures kept { KeepsRows at room.old room.new }
    ensures here { slice_index_or (row_at room.new at) mode None ≡ cost }
    ensures others { (other : ℕ) → other ≢ mode → slice_index_or (row_at room.new at) other None ≡ slice_index_or (row_at room.old at) other None }
{
    prove!(at < room.len());
    room.set(at * MAX_CHOICES + mode, cost);
}

/// The least step from the mode at a record, before what stands behind it. None comes exactly where there is none.
pub(crate) fn step_from(
    asked: &ComponentQuery<'_>,
    at: usize,
    from: u8,
    behind: &[Option<u64>],
) -> Option<Step>
    requires at { at < length asked.now.query.now.records }
    requires mode { HasMode asked.now.query.now.model asked.now.component from }
    requires full { length behind.now ≡ MAX_CHOICES }
    requires cheap { AreCheap (modes_of asked.now) (MAX_WINDOW * MAX_COST) behind.now }
    ensures { IsLeastFrom asked.now at behind.now from result }
{
    let leaving = Leaving::of(asked.query, asked.component, at, from);
    least_step(&leaving, &asked.ahead(at, behind))
}

/// What stands for a mode before a record.
fn total_from(
    asked: &ComponentQuery<'_>,
    at: usize,
    from: u8,
    behind: &[Option<u64>],
) -> Option<u64>
    requires at { at < length asked.now.query.now.records }
    requires mode { HasMode asked.now.query.now.model asked.now.component from }
    requires full { length behind.now ≡ MAX_CHOICES }
    requires cheap { AreCheap (modes_of asked.now) (MAX_WINDOW * MAX_COST) behind.now }
    ensures total { MayStand asked.now at from → (step : Option Step) × IsLeastFrom asked.now at behind.now from step × (result ≡ total_of step) }
    ensures cheap { (most : ℕ) → AreCheap (modes_of asked.now) most behind.now → IfSome result (λ total. total ≤ most + MAX_COST) }
{
    prove!(at < asked.query.records().len());
    if !asked.may_stand(at, from) {
        return None;
    }
    let step = step_from(asked, at, from, behind)?;
    Some(step.total)
}

/// Writes the row before a record, by that behind it.
fn fill_row(asked: &ComponentQuery<'_>, at: usize, room: &mut List<Option<u64>>)
    requires at { at < length asked.now.query.now.records }
    requires full { length room.old ≡ room_of asked.now.query.now }
    requires cheap { AreCheap (modes_of asked.now) (MAX_WINDOW * MAX_COST) (row_at room.old (at + 1)) }
    ensures kept { KeepsRows at room.old room.new }
    ensures totals { AreTotals asked.now at (row_at room.new (at + 1)) (row_at room.new at) }
    ensures cheap { (most : ℕ) → AreCheap (modes_of asked.now) most (row_at room.old (at + 1)) → AreCheap (modes_of asked.now) (most + MAX_COST) (row_at room.new at) }
{
    for from in 0..asked.modes() {
        let total = total_from(asked, at, from as u8, row_of(room, at + 1));
        put(room, at, from, total);
    }
}

/// Writes that nothing comes behind the last record.
fn fill_last(asked: &ComponentQuery<'_>, room: &mut List<Option<u64>>)
    requires full { length room.old ≡ room_of asked.now.query.now }
    ensures full { length room.new ≡ length room.old }
    ensures last { (mode : ℕ) → mode < modes_of asked.now →
        slice_index_or (row_at room.new (length asked.now.query.now.records)) mode None ≡ Some 0 }
{
    let count = asked.query.records().len();
    for mode in 0..asked.modes() {
        put(room, count, mode, Some(0));
    }
}

/// Writes what comes behind each record.
pub(crate) fn fill_rests(asked: &ComponentQuery<'_>, room: &mut List<Option<u64>>)
    requires full { length room.old ≡ room_of asked.now.query.now }
    ensures { AreRests asked.now room.new }
{
    fill_last(asked, room);
    let count = asked.query.records().len();
    for done in 0..count {
        fill_row(asked, count - 1 - done, room);
    }
}
