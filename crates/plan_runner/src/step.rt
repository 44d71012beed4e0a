//! The step of a command.

ghost use Rattle.std.specs.Prelude.{◌≡◌, ℕ, List};
ghost use Rattle.cca_base.specs.Prelude.{IsState, Step};

use cca_base::{Model, Pair, State};

/// Where the command, which is a step, leads its component.
fn target_of(model: &Model, state: &State, command: u16) -> Pair
    requires state { IsState model.now state.now.modes }
    requires step { (next : List ℕ) × Step model.now state.now.modes command next }
    ensures { (next : List ℕ) × (step : Step model.now state.now.modes command next)
        × (result ≡ record { item = step.move.component; value = step.move.target }) }
{
    let moves = model.moves();
    let Some(number) = model.named(state, command) else {
        unreachable!()
    };
    let x = moves.get(number as usize);
    Pair {
        item: x.component,
        value: x.target,
    }
}

/// Makes the command's step.
pub(crate) fn send(model: &Model, state: &mut State, command: u16)
    requires state { IsState model.now state.old.modes }
    requires step { (next : List ℕ) × Step model.now state.old.modes command next }
    ensures { Step model.now state.old.modes command state.new.modes }
{
    let target = target_of(model, state, command);
    state.modes.set(target.item as usize, target.value);
}
