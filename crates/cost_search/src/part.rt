//! Parts of the space of states: a span of each row. Parts are ordered by their first states.

ghost use Rattle.std.specs.Prelude.{◌≡◌, IfOk};
ghost use Rattle.std.specs.Cmp.{partial_order_from_own_ties};
ghost use Rattle.std.specs.Cmp.Rules.{comparing};
ghost use Rattle.std.specs.Ordering.{as_partial_cmp};
ghost use Rattle.std.proofs.Common.{rules};
ghost use Rattle.cost_search.specs.SearchParts.{part_eq, part_cmp};

use cca_base::List;
use std::alloc::{AllocError, Global};
use std::cmp::Ordering;

/// Some choices of a row that stand side by side.
#[derive(Clone, Copy, Debug)]
pub struct Span {
    /// The place of the first.
    pub from: u16,
    /// The place behind the last.
    pub to: u16,
}

/// The states that choose within a span of each row. Of two parts the greater is the one whose first state comes first.
#[derive(Debug, Drop)]
pub struct Part {
    /// What the first state costs.
    pub cost: u64,
    /// The modes of the first state.
    pub modes: List<u8>,
    /// What each component may choose from.
    pub spans: List<Span>,
}

impl Part {
    /// An equal part. The error is out of memory.
    pub fn copy(&self, alloc: Global) -> Result<Part, AllocError>
        ensures { IfOk result (λ p. p ≡ self.now) }
    {
        let modes = self.modes.copy(alloc)?;
        let spans = self.spans.copy(alloc)?;
        Ok(Part {
            cost: self.cost,
            modes,
            spans,
        })
    }
}

impl PartialEq for Part {
    ghost eq = { part_eq };

    ghost laws = { Prim.search (comparing, rules) };

    fn eq(&self, other: &Part) -> bool {
        self.cost == other.cost && self.modes.as_slice() == other.modes.as_slice()
    }
}

impl Eq for Part {
    ghost laws = { Prim.search (comparing, rules) };
}

impl PartialOrd for Part {
    ghost partial_cmp = { as_partial_cmp part_cmp };

    ghost laws = { partial_order_from_own_ties (Prim.search (comparing, rules)) (Prim.search (comparing, rules)) };

    fn partial_cmp(&self, other: &Part) -> Option<Ordering> {
        Some(self.cmp(other))
    }
}

impl Ord for Part {
    ghost cmp = { part_cmp };

    ghost total = { Prim.search (comparing, rules) };

    ghost matches_partial_cmp = { Prim.search (comparing, rules) };

    ghost matches_eq = { Prim.search (comparing, rules) };

    fn cmp(&self, other: &Part) -> Ordering {
        other
            .cost
            .cmp(&self.cost)
            .then(other.modes.as_slice().cmp(self.modes.as_slice()))
    }
}
