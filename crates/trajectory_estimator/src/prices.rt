//! What it costs more at least to leave each value of a component's walk.

ghost use Rattle.std.specs.Prelude.{◌≡◌, ◌<◌, ◌≤◌, ◌+◌, ◌*◌, ℕ, List, length, slice_index};
ghost use Rattle.cca_base.specs.declared.limits.TheConstants.{MAX_CHOICES, MAX_COST};
ghost use Rattle.group_search.specs.Columns.{AreColumns, CostsMore};
ghost use Rattle.trajectory_estimator.specs.Asked.{Asked};
ghost use Rattle.trajectory_estimator.specs.Rests.{AreHeads, AreInside, ArePricedTo, AreRests, AtMost, KeepsPrices, KeepsTaken, TakesIn, TakesSteps, modes_of, whole_cost};
ghost use Rattle.trajectory_estimator.specs.Steps.{AreCheap, IsLeaving, IsReach, IsStep, IsStepTo, IsStepToBy};
ghost use Rattle.trajectory_estimator.specs.Walks.{gate_place, mode_place, places};
ghost use Rattle.trajectory_estimator.specs.Windows.{window_of};
ghost use Rattle.trajectory_estimator.specs.declared.record.TheConstants.{MAX_WINDOW};
ghost use Rattle.trajectory_estimator.specs.declared.step.Ahead.{Ahead};
ghost use Rattle.trajectory_estimator.specs.declared.step.Step.{Step};

use crate::component_query::ComponentQuery;
use crate::heads::with_cost;
use crate::leaving::{EITHER, Leaving, OPEN, SHUT};
use crate::rests::row_of;
use crate::step::{Ahead, Reach, Step};
use group_search::Columns;

/// What walks through a record cost to the end, beside the least walk.
#[derive(Clone, Copy, Debug)]
pub(crate) struct Passed {
    /// The mode that the least walk reaches there.
    pub own_mode: u8,
    /// The gate by which it goes.
    pub own_gate: u8,
    /// What walks cost at least that reach another mode.
    pub other_mode: Option<u64>,
    /// What walks cost at least that go by another gate.
    pub other_gate: Option<u64>,
}

impl Passed {
    /// Takes in a step behind its head.
    fn take(&mut self, head: u64, step: Step)
        ensures taken { TakesIn head step self.new }
        ensures kept { KeepsTaken self.old self.new }
    {
        let whole = head.saturating_add(step.total);
        if step.to != self.own_mode {
            self.other_mode = with_cost(self.other_mode, whole);
        }
        if step.gate != self.own_gate {
            self.other_gate = with_cost(self.other_gate, whole);
        }
    }

    /// Takes in the step by a gate, if there is one.
    fn take_by(&mut self, head: u64, reach: &Reach, gate: u8)
        ensures taken { (q : Asked) (c at from to : ℕ) (ahead : Ahead) → IsReach q c at from ahead to reach.now → (s : Step) →
            IsStepToBy q c at from ahead to gate s → TakesIn head s self.new }
        ensures kept { KeepsTaken self.old self.new }
    {
        if let Some(step) = reach.by(gate) {
            self.take(head, step);
        }
    }

    /// Takes in the steps to a mode.
    fn take_to(&mut self, head: u64, leaving: &Leaving<'_>, ahead: &Ahead<'_>, to: u8)
        requires to { to < length leaving.now.failures.now }
        requires few { to < MAX_CHOICES }
        requires rests { length ahead.now.rests.now ≡ MAX_CHOICES }
        requires cheap { AreCheap (length leaving.now.failures.now) (MAX_WINDOW * MAX_COST) ahead.now.rests.now }
        ensures taken { (q : Asked) (c at : ℕ) → IsLeaving q c at leaving.now → (s : Step) →
            IsStepTo q c at leaving.now.from ahead.now to s → TakesIn head s self.new }
        ensures kept { KeepsTaken self.old self.new }
    {
        let Some(reach) = Reach::of(leaving, ahead, to) else {
            return;
        };
        self.take_by(head, &reach, EITHER);
        self.take_by(head, &reach, OPEN);
        self.take_by(head, &reach, SHUT);
    }

    /// Takes in the steps from a mode.
    fn take_from(&mut self, head: u64, leaving: &Leaving<'_>, ahead: &Ahead<'_>)
        requires few { length leaving.now.failures.now ≤ MAX_CHOICES }
        requires rests { length ahead.now.rests.now ≡ MAX_CHOICES }
        requires cheap { AreCheap (length leaving.now.failures.now) (MAX_WINDOW * MAX_COST) ahead.now.rests.now }
        ensures taken { (q : Asked) (c at : ℕ) → IsLeaving q c at leaving.now → (s : Step) →
            IsStep q c at leaving.now.from ahead.now s → TakesIn head s self.new }
        ensures kept { KeepsTaken self.old self.new }
    {
        for to in 0..leaving.failures.len() {
            self.take_to(head, leaving, ahead, to as u8);
        }
    }

    /// What walks through the record cost at least, by what they cost before it and behind it.
    fn at(
        asked: &ComponentQuery<'_>,
        at: usize,
        heads: &[Option<u64>],
        behind: &[Option<u64>],
        values: &[u8],
    ) -> Passed
        requires at { at < length asked.now.query.now.records }
        requires heads { length heads.now ≡ MAX_CHOICES }
        requires rests { length behind.now ≡ MAX_CHOICES }
        requires values { length values.now ≡ places asked.now.query.now }
        requires cheap { AreCheap (modes_of asked.now) (MAX_WINDOW * MAX_COST) behind.now }
        ensures mode { result.own_mode ≡ slice_index values.now (mode_place asked.now.query.now asked.now.component at) }
        ensures gate { result.own_gate ≡ slice_index values.now (gate_place asked.now.query.now asked.now.component at) }
        ensures taken { TakesSteps asked.now at heads.now behind.now result }
    {
        let ahead = asked.ahead(at, behind);
        let mut passed = Passed {
            own_mode: values[asked.mode_place(at)],
            own_gate: values[asked.gate_place(at)],
            other_mode: None,
            other_gate: None,
        };
        for from in 0..asked.modes() {
            if let Some(head) = heads[from] {
                let leaving = Leaving::of(asked.query, asked.component, at, from as u8);
                passed.take_from(head, &leaving, &ahead);
            }
        }
        passed
    }
}

/// What a walk of this cost costs more than the column.
fn price_of(cost: Option<u64>, column: u64) -> Option<u64>
    ensures { (whole : ℕ) → column ≤ whole → AtMost cost whole → CostsMore result column whole }
{
    match cost {
        None => None,
        Some(cost) => Some(cost.saturating_sub(column)),
    }
}

/// Writes what it costs more to leave each value of the component's column.
pub(crate) fn set_prices(asked: &ComponentQuery<'_>, columns: &mut Columns)
    requires rests { AreRests asked.now columns.old.behind }
    requires heads { AreHeads asked.now (length asked.now.query.now.records) columns.old.before }
    requires shape { AreColumns (window_of asked.now.query.now) columns.old }
    requires least { (values : List ℕ) (own : ℕ → ℕ) → AreInside asked.now values own → slice_index columns.old.costs asked.now.component ≤ whole_cost asked.now own }
    ensures kept { KeepsPrices asked.now columns.old columns.new }
    ensures priced { ArePricedTo asked.now (length asked.now.query.now.records) columns.new }
{
    let cost = *columns.costs.get(asked.component as usize);
    for at in 0..asked.query.records().len() {
        let passed = Passed::at(
            asked,
            at,
            row_of(&columns.before, at),
            row_of(&columns.behind, at + 1),
            columns.values.as_slice(),
        );
        columns
            .prices
            .set(asked.mode_place(at), price_of(passed.other_mode, cost));
        columns
            .prices
            .set(asked.gate_place(at), price_of(passed.other_gate, cost));
    }
}
