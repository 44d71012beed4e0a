//! Whether numbers are a state or a world of the model.

ghost use Rattle.std.specs.Prelude.{◌≡◌, ◌↔◌, ◌<◌, IsTrue};
ghost use Rattle.cca_base.specs.Prelude.{IsState, IsWorld};
ghost use Rattle.plan_checker.specs.Worlds.{AreValues, KeepsRules};

use cca_base::{Model, State, World, holds_at};

/// Whether there is one mode for each component.
pub(crate) fn is_state(model: &Model, state: &State) -> bool
    ensures { IsTrue result ↔ IsState model.now state.now.modes }
{
    let components = model.components().as_slice();
    let modes = state.modes.as_slice();
    if modes.len() != components.len() {
        return false;
    }
    for at in 0..modes.len() {
        if modes[at] as usize >= components[at].modes.len() {
            return false;
        }
    }
    true
}

/// Whether there is one value for each variable.
fn has_values(model: &Model, world: &World) -> bool
    ensures { IsTrue result ↔ AreValues model.now world.now.values }
{
    let variables = model.variables().as_slice();
    let values = world.values.as_slice();
    if values.len() != variables.len() {
        return false;
    }
    for at in 0..values.len() {
        if values[at] as usize >= variables[at].values.len() {
            return false;
        }
    }
    true
}

/// Whether every rule is true with the values in the state.
fn keeps_rules(model: &Model, state: &State, world: &World) -> bool
    requires state { IsState model.now state.now.modes }
    requires values { AreValues model.now world.now.values }
    ensures { IsTrue result ↔ KeepsRules model.now state.now.modes world.now.values }
{
    for rule in model.rules().as_slice() {
        if !holds_at(rule, state, world) {
            return false;
        }
    }
    true
}

/// Whether the values are a world of the state.
pub(crate) fn is_world(model: &Model, state: &State, world: &World) -> bool
    requires { IsState model.now state.now.modes }
    ensures { IsTrue result ↔ IsWorld model.now state.now.modes world.now.values }
{
    has_values(model, world) && keeps_rules(model, state, world)
}
