//! The goal that leads to a target.

ghost use Rattle.std.specs.Prelude.{IfOk};
ghost use Rattle.cca_base.specs.Prelude.{IsState};
ghost use Rattle.wish_laws.specs.Settled.{IsGoalOf};

use cca_base::{Compiled, Goal, List, Pair, State};
use std::alloc::{AllocError, Global};

/// The pairs of the state whose modes aren't broken, effects before their causes. The error is out of memory.
pub(crate) fn goal_of(alloc: Global, compiled: &Compiled, state: &State) -> Result<Goal, AllocError>
    requires { IsState compiled.now.model state.now.modes }
    ensures { IfOk result (λ goal. IsGoalOf compiled.now state.now.modes goal.pairs) }
{
    let model = compiled.model();
    let order = compiled.order();
    let mut pairs = List::new(alloc);
    for i in 0..order.len() {
        let item = *order.get(i);
        let value = *state.modes.get(item as usize);
        if !model.broken(item, value) {
            pairs.push(Pair { item, value })?;
        }
    }
    Ok(Goal { pairs })
}
