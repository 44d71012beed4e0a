//! Where a command sends a component, and the plant with it. A guard is tested by the prime implicants of its move, so this takes no memory.

ghost use Rattle.std.specs.Prelude.{◌≡◌, ◌↔◌, ◌<◌, IsTrue, IfSome, IsNone, Some, length, slice_get};
ghost use Rattle.cca_base.specs.Prelude.{HasMode, IsCommanded, IsState, Nominal};
ghost use Rattle.cca_base.specs.declared.model.Move.{Move};
ghost use Rattle.successors.specs.Nominal.{IsSent, NoneSent, SomeStands};

use cca_base::{Compiled, Cube, Pair, State};

/// Whether one of the cubes stands in the state.
fn some_stands(modes: &[u8], cubes: &[Cube]) -> bool
    ensures { IsTrue result ↔ SomeStands modes.now cubes.now }
{
    for cube in cubes {
        if cube.stands_in(modes) {
            return true;
        }
    }
    false
}

/// The component that the command sends to a target, with that target. None comes exactly where it sends none.
pub fn nominal(compiled: &Compiled, state: &State, command: Option<u16>) -> Option<Pair>
    requires { IsState compiled.now.model state.now.modes }
    ensures some { IfSome result (IsSent compiled.now.model state.now.modes command) }
    ensures mode { IfSome result (λ p. HasMode compiled.now.model p.item p.value) }
    ensures none { IsNone result → NoneSent compiled.now.model state.now.modes command }
{
    let model = compiled.model();
    let number = model.named(state, command?)?;
    let ways = compiled.ways().get(number as usize);
    if !some_stands(state.modes.as_slice(), ways.as_slice()) {
        return None;
    }
    let step = model.moves().get(number as usize);
    Some(Pair {
        item: step.component,
        value: step.target,
    })
}

/// Makes the nominal move of the command, if there is one.
pub fn obey(compiled: &Compiled, plant: &mut State, command: Option<u16>)
    requires { IsState compiled.now.model plant.old.modes }
    ensures moves { Nominal compiled.now.model plant.old.modes command plant.new.modes }
    ensures fits { IsState compiled.now.model plant.new.modes }
{
    if let Some(pair) = nominal(compiled, plant, command) {
        plant.modes.set(pair.item as usize, pair.value);
    }
}
