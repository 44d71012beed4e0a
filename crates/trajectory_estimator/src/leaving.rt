//! What the steps of a component from one mode at a record cost.

ghost use Rattle.std.specs.Prelude.{◌≡◌, ◌<◌, ℕ, IfSome, IsNone, Some, length};
ghost use Rattle.cca_base.specs.Prelude.{HasMode};
ghost use Rattle.trajectory_estimator.specs.Asked.{Asked};
ghost use Rattle.trajectory_estimator.specs.Steps.{AreCosts, IsLeaving, IsStepCost};

use crate::moved::own_target;
use crate::query::Query;
use successors::change;

/// A gate that is shut.
pub(crate) const SHUT: u8 = 0;

/// A gate that is open.
pub(crate) const OPEN: u8 = 1;

/// A gate that may be either: the step costs the same by both.
pub(crate) const EITHER: u8 = 2;

/// What steps from one mode to another cost. None stands where there is no such step.
#[derive(Clone, Copy, Debug)]
pub(crate) struct GateCosts {
    /// By a gate that is shut.
    pub shut: Option<u64>,
    /// By a gate that is open.
    pub open: Option<u64>,
    /// By either, where both cost the same.
    pub either: Option<u64>,
}

impl GateCosts {
    /// What the step costs by what the value stands for. None comes exactly where there is no such step.
    pub(crate) fn by(&self, value: u8) -> Option<u64>
        ensures { (q : Asked) (c at from to : ℕ) → AreCosts q c at from to self.now → IsStepCost q c at value from to result }
    {
        match value {
            SHUT => self.shut,
            OPEN => self.open,
            EITHER => self.either,
            _ => None,
        }
    }
}

/// A component that leaves a mode at a record.
#[derive(Clone, Copy, Debug)]
pub(crate) struct Leaving<'a> {
    pub from: u8,
    /// Where an open gate sends it.
    pub open: u8,
    /// What failures from there cost at least, by the mode that they lead to.
    pub failures: &'a [Option<u32>],
}

/// What the step costs by both gates, if it costs the same.
fn same_cost(by_shut: Option<u64>, by_open: Option<u64>) -> Option<u64>
    ensures some { IfSome result (λ own. (by_shut ≡ Some own) × (by_open ≡ Some own)) }
    ensures none { IsNone result → (own : ℕ) → by_shut ≡ Some own → by_open ≡ Some own → ⊥ }
{
    if by_shut == by_open { by_shut } else { None }
}

impl<'a> Leaving<'a> {
    /// The component as it leaves the mode at the record.
    pub(crate) fn of(query: &Query<'a>, component: u16, at: usize, from: u8) -> Leaving<'a>
        requires at { at < length query.now.records }
        requires mode { HasMode query.now.model component from }
        ensures leaving { IsLeaving query.now component at result }
        ensures from { result.from ≡ from }
    {
        let command = query.records()[at].command;
        let own = own_target(query.model(), component, command, from);
        Leaving {
            from,
            open: own.unwrap_or(from),
            failures: query.changes().row(component, from),
        }
    }

    /// What the steps to a mode cost, by what a gate's value stands for.
    pub(crate) fn costs_to(&self, to: u8) -> GateCosts
        requires { to < length self.now.failures.now }
        ensures { (q : Asked) (c at : ℕ) → IsLeaving q c at self.now → AreCosts q c at self.now.from to result }
    {
        let failure = self.failures[to as usize];
        let shut = change(to, self.from, failure);
        let open = change(to, self.open, failure);
        GateCosts {
            shut,
            open,
            either: same_cost(shut, open),
        }
    }
}
