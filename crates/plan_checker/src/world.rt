//! Whether the printed values explain the tick.

ghost use Rattle.std.specs.Prelude.{◌↔◌, IsTrue, IfOk};
ghost use Rattle.cca_base.specs.Prelude.{HasWorlds, IsState};
ghost use Rattle.plan_checker.specs.Reasons.{ExplainsTick};
ghost use Rattle.plan_checker.specs.Standing.{FitsModel, KeepsPending};
ghost use Rattle.plan_checker.specs.Worlds.{AreSeen, SomeAreSeen};

use crate::states::is_world;
use cca_base::{Seen, State, World};
use consistency::{Rules, stand_in};
use std::alloc::AllocError;
use trace_laws::{Standing, nothing_seen};

/// What the tick observes; nothing while holding. The error is out of memory.
fn observed(rules: &Rules, standing: &Standing) -> Result<Seen, AllocError>
    requires all { HasWorlds rules.now.model.now }
    requires fits { FitsModel rules.now.model.now standing.now }
    requires pending { KeepsPending standing.now }
    ensures { IfOk result (λ seen. AreSeen rules.now.model.now standing.now seen.pairs) }
{
    if standing.holding {
        return Ok(nothing_seen(rules.alloc));
    }
    rules.worlds.observed_by(
        rules.alloc,
        rules.model,
        &standing.plant,
        standing.known.mirrored,
        standing.known.pending.pairs.as_slice(),
    )
}

/// Whether the values are a world of the state that agrees with what the tick observes. The error is out of memory.
pub(crate) fn explains_tick(
    rules: &Rules,
    standing: &Standing,
    state: &State,
    world: &World,
) -> Result<bool, AllocError>
    requires all { HasWorlds rules.now.model.now }
    requires fits { FitsModel rules.now.model.now standing.now }
    requires pending { KeepsPending standing.now }
    requires state { IsState rules.now.model.now state.now.modes }
    ensures explains { IfOk result (λ b.
        IsTrue b ↔ ExplainsTick rules.now.model.now standing.now state.now.modes world.now.values) }
    ensures seen { IfOk result (λ b. IsTrue b → SomeAreSeen rules.now.model.now standing.now) }
{
    if !is_world(rules.model, state, world) {
        return Ok(false);
    }
    let seen = observed(rules, standing)?;
    Ok(stand_in(seen.pairs.as_slice(), world.values.as_slice()))
}
