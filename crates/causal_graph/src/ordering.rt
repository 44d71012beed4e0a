//! An effects-first order of the components, or a shown cycle.

ghost use Rattle.std.specs.Prelude.{◌≤◌, ◌↔◌, length, IfOk};
ghost use Rattle.cca_base.specs.Prelude.{IsAcyclicBy};
ghost use Rattle.cca_base.specs.declared.limits.TheConstants.{MAX_ROWS};
ghost use Rattle.causal_graph.specs.Answers.{IsEffects, IsOrder};
ghost use Rattle.causal_graph.specs.Needs.{AreRows, RowNeeds};

use crate::answer::Order;
use crate::cycle::shown_cycle;
use crate::effects::effects_first;
use cca_base::List;
use std::alloc::{AllocError, Global};

/// The order of the components, or the shown cycle. Row c of `needs` lists the components that c needs, in any order. The
/// answer is `Effects` exactly where no component is its own ancestor. The error is out of memory.
pub fn order(alloc: Global, needs: &List<List<u16>>) -> Result<Order, AllocError>
    requires few { length needs.now ≤ MAX_ROWS }
    requires rows { AreRows needs.now }
    ensures order { IfOk result (IsOrder needs.now) }
    ensures acyclic { IfOk result (λ o. IsEffects o ↔ IsAcyclicBy (RowNeeds needs.now)) }
{
    match effects_first(alloc, needs)? {
        Some(list) => Ok(Order::Effects(list)),
        None => Ok(Order::Cycle(shown_cycle(alloc, needs)?)),
    }
}
