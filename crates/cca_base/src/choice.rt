//! The modes that components may take at a tick, with what each costs.

ghost use Rattle.std.specs.Prelude.{nat_eq};
ghost use Rattle.std.specs.Cmp.{partial_order_from_own_ties};
ghost use Rattle.std.specs.Cmp.Rules.{comparing};
ghost use Rattle.std.specs.Ordering.{as_partial_cmp, eq_of_both, on};
ghost use Rattle.std.proofs.Common.{rules};
ghost use Rattle.cca_base.specs.Choices.{choice_cmp};

use crate::list::List;
use std::cmp::Ordering;

/// A mode that a component may take, with what that costs.
#[derive(Clone, Copy, Debug)]
pub struct Choice {
    /// The mode's number.
    pub mode: u8,
    /// The least cost of the change to it; 0 for the nominal mode.
    pub cost: u64,
}

impl PartialEq for Choice {
    ghost eq = { eq_of_both (on (λ x. x.cost) nat_eq) (on (λ x. x.mode) nat_eq) };

    ghost laws = { Prim.search (comparing, rules) };

    fn eq(&self, other: &Choice) -> bool {
        self.cost == other.cost && self.mode == other.mode
    }
}

impl Eq for Choice {
    ghost laws = { Prim.search (comparing, rules) };
}

impl PartialOrd for Choice {
    ghost partial_cmp = { as_partial_cmp choice_cmp };

    ghost laws = { partial_order_from_own_ties (Prim.search (comparing, rules)) (Prim.search (comparing, rules)) };

    fn partial_cmp(&self, other: &Choice) -> Option<Ordering> {
        Some(self.cmp(other))
    }
}

impl Ord for Choice {
    ghost cmp = { choice_cmp };

    ghost total = { Prim.search (comparing, rules) };

    ghost matches_partial_cmp = { Prim.search (comparing, rules) };

    ghost matches_eq = { Prim.search (comparing, rules) };

    fn cmp(&self, other: &Choice) -> Ordering {
        self.cost.cmp(&other.cost).then(self.mode.cmp(&other.mode))
    }
}

/// What each component may become.
#[derive(Debug, Drop)]
pub struct Choices {
    /// The choices of each component, by cost and then by mode.
    pub rows: List<List<Choice>>,
}
