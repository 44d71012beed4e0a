//! The least step of a component from one mode at a record.

ghost use Rattle.std.specs.Prelude.{◌≡◌, ◌<◌, ◌≤◌, ◌*◌, ◌⊎◌, ℕ, IfSome, IsNone, Some, length};
ghost use Rattle.cca_base.specs.declared.limits.TheConstants.{MAX_CHOICES, MAX_COST};
ghost use Rattle.trajectory_estimator.specs.Asked.{Asked};
ghost use Rattle.trajectory_estimator.specs.Steps.{AreCheap, IsLeastOf, IsLeaving, IsReach, IsStep, IsStepTo, IsStepToBy};
ghost use Rattle.trajectory_estimator.specs.declared.record.TheConstants.{MAX_WINDOW};

use crate::leaving::{EITHER, GateCosts, Leaving, OPEN, SHUT};
use group_search::has_value;

/// What a step may be, and what comes behind it.
#[derive(Clone, Copy, Debug)]
pub(crate) struct Ahead<'a> {
    /// The modes to which it may lead.
    pub modes: u64,
    /// What its gate may be.
    pub gates: u64,
    /// What the steps behind it cost at least, by the mode to which it leads.
    pub rests: &'a [Option<u64>],
}

/// A step of a component at a record.
#[derive(Clone, Copy, Debug)]
pub(crate) struct Step {
    pub to: u8,
    pub gate: u8,
    /// What it costs itself.
    pub own: u64,
    /// What it costs with all that comes behind it.
    pub total: u64,
}

/// The step of less cost, if there is one.
fn lesser(first: Option<Step>, second: Option<Step>) -> Option<Step>
    ensures none { IsNone result → IsNone first × IsNone second }
    ensures one { IfSome result (λ s. (first ≡ Some s) ⊎ (second ≡ Some s)) }
    ensures least { IfSome result (λ s.
        IfSome first (λ t. s.total ≤ t.total) × IfSome second (λ t. s.total ≤ t.total)) }
{
    let Some(a) = first else {
        return second;
    };
    match second {
        Some(b) if b.total < a.total => second,
        _ => first,
    }
}

/// The steps to one mode that they may lead to.
#[derive(Clone, Copy, Debug)]
pub(crate) struct Reach {
    pub to: u8,
    /// What their gate may be.
    pub gates: u64,
    /// What they cost themselves.
    pub costs: GateCosts,
    /// What comes behind them.
    pub rest: u64,
}

impl Reach {
    /// The steps to the mode. None comes only where there are none.
    pub(crate) fn of(leaving: &Leaving<'_>, ahead: &Ahead<'_>, to: u8) -> Option<Reach>
        requires to { to < length leaving.now.failures.now }
        requires few { to < MAX_CHOICES }
        requires rests { length ahead.now.rests.now ≡ MAX_CHOICES }
        requires cheap { AreCheap (length leaving.now.failures.now) (MAX_WINDOW * MAX_COST) ahead.now.rests.now }
        ensures some { IfSome result (λ r. (q : Asked) (c at : ℕ) → IsLeaving q c at leaving.now → IsReach q c at leaving.now.from ahead.now to r) }
        ensures none { IsNone result → (q : Asked) (c at : ℕ) (s : Step) → IsStepTo q c at leaving.now.from ahead.now to s → ⊥ }
    {
        if !has_value(ahead.modes, to) {
            return None;
        }
        let rest = ahead.rests[to as usize]?;
        Some(Reach {
            to,
            gates: ahead.gates,
            costs: leaving.costs_to(to),
            rest,
        })
    }

    /// The step by a gate, if it may be.
    pub(crate) fn by(&self, gate: u8) -> Option<Step>
        ensures { (q : Asked) (c at from to : ℕ) (ahead : Ahead) → IsReach q c at from ahead to self.now →
            IsLeastOf (IsStepToBy q c at from ahead to gate) result }
    {
        if !has_value(self.gates, gate) {
            return None;
        }
        let own = self.costs.by(gate)?;
        Some(Step {
            to: self.to,
            gate,
            own,
            total: own.saturating_add(self.rest),
        })
    }

    /// The least step. None comes exactly where there is none.
    fn least(&self) -> Option<Step>
        ensures { (q : Asked) (c at from to : ℕ) (ahead : Ahead) → IsReach q c at from ahead to self.now →
            IsLeastOf (IsStepTo q c at from ahead to) result }
    {
        if let Some(step) = self.by(EITHER) {
            return Some(step);
        }
        lesser(self.by(OPEN), self.by(SHUT))
    }
}

/// The least step to a mode. None comes exactly where there is none.
pub(crate) fn step_to(leaving: &Leaving<'_>, ahead: &Ahead<'_>, to: u8) -> Option<Step>
    requires to { to < length leaving.now.failures.now }
    requires few { to < MAX_CHOICES }
    requires rests { length ahead.now.rests.now ≡ MAX_CHOICES }
    requires cheap { AreCheap (length leaving.now.failures.now) (MAX_WINDOW * MAX_COST) ahead.now.rests.now }
    ensures { (q : Asked) (c at : ℕ) → IsLeaving q c at leaving.now →
        IsLeastOf (IsStepTo q c at leaving.now.from ahead.now to) result }
{
    Reach::of(leaving, ahead, to)?.least()
}

/// The least step from the mode. None comes exactly where there is none.
pub(crate) fn least_step(leaving: &Leaving<'_>, ahead: &Ahead<'_>) -> Option<Step>
    requires few { length leaving.now.failures.now ≤ MAX_CHOICES }
    requires rests { length ahead.now.rests.now ≡ MAX_CHOICES }
    requires cheap { AreCheap (length leaving.now.failures.now) (MAX_WINDOW * MAX_COST) ahead.now.rests.now }
    ensures { (q : Asked) (c at : ℕ) → IsLeaving q c at leaving.now →
        IsLeastOf (IsStep q c at leaving.now.from ahead.now) result }
{
    let mut least = None;
    for to in 0..leaving.failures.len() {
        least = lesser(least, step_to(leaving, ahead, to as u8));
    }
    least
}
