//! One component's walk of least cost through a window.

ghost use Rattle.std.specs.Prelude.{◌≡◌, ◌<◌, length, slice_set, true, false};
ghost use Rattle.group_search.specs.Columns.{AreColumns};
ghost use Rattle.trajectory_estimator.specs.Rests.{AreRests, IsFollowed, KeepsValues, NoWalk};
ghost use Rattle.trajectory_estimator.specs.Walks.{gate_place, mode_place};
ghost use Rattle.trajectory_estimator.specs.Windows.{window_of};

use crate::component_query::ComponentQuery;
use crate::rests::{row_of, step_from};
use crate::step::Step;
use group_search::Columns;

/// Notes the step at a record.
fn note_step(asked: &ComponentQuery<'_>, at: usize, step: Step, columns: &mut Columns)
    requires at { at < length asked.now.query.now.records }
    requires shape { AreColumns (window_of asked.now.query.now) columns.old }
    ensures { columns.new ≡ record columns.old {
      values = slice_set (slice_set columns.old.values (mode_place asked.now.query.now asked.now.component at) step.to)
          (gate_place asked.now.query.now asked.now.component at) step.gate;
    } }
{
    columns.values.set(asked.mode_place(at), step.to);
    columns.values.set(asked.gate_place(at), step.gate);
}

/// Writes the least steps from the anchor's mode on, and what they cost together. False comes exactly where there is no walk.
pub(crate) fn follow(asked: &ComponentQuery<'_>, columns: &mut Columns) -> bool
    requires rests { AreRests asked.now columns.old.behind }
    requires shape { AreColumns (window_of asked.now.query.now) columns.old }
    ensures kept { KeepsValues asked.now columns.old columns.new }
    ensures walk { result ≡ true → IsFollowed asked.now columns.old columns.new }
    ensures none { result ≡ false → NoWalk asked.now }
{
    let mut mode = asked.anchor();
    let mut cost = 0;
    for at in 0..asked.query.records().len() {
        let Some(step) = step_from(asked, at, mode, row_of(&columns.behind, at + 1)) else {
            return false;
        };
        note_step(asked, at, step, columns);
        cost += step.own;
        mode = step.to;
    }
    columns.costs.set(asked.component as usize, cost);
    true
}
