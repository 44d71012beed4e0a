//! The choices of all components at a tick.

ghost use Rattle.std.specs.Prelude.{◌≡◌, IfOk};
ghost use Rattle.cca_base.specs.Prelude.{IsState};
ghost use Rattle.successors.specs.Choices.{AreChoices, mode_after};
ghost use Rattle.successors.specs.Spaces.{IsChoiceSpace};

use crate::choice_space::ChoiceSpace;
use crate::row::note_costs;
use crate::sent::nominal;
use cca_base::{Choices, Compiled, Pair, State};
use std::alloc::{AllocError, Global};

/// The component's mode after the one that moves has moved.
fn nominal_mode(moved: Option<Pair>, component: u16, mode: u8) -> u8
    ensures { result ≡ mode_after moved component mode }
{
    match moved {
        None => mode,
        Some(pair) => {
            if pair.item == component {
                pair.value
            } else {
                mode
            }
        }
    }
}

/// Writes per component each mode that has a cost, with its least cost, by cost and then by mode.
pub fn choices_in(compiled: &Compiled, state: &State, command: Option<u16>, space: &mut ChoiceSpace)
    requires state { IsState compiled.now.model state.now.modes }
    requires space { IsChoiceSpace compiled.now.model space.old }
    ensures choices { AreChoices compiled.now.model state.now.modes command space.new.rows.rows }
    ensures space { IsChoiceSpace compiled.now.model space.new }
{
    let moved = nominal(compiled, state, command);
    let model = compiled.model();
    note_costs(model, state.modes.as_slice(), &mut space.costs);
    for c in 0..model.components().len() as u16 {
        let mode = *state.modes.get(c as usize);
        let nominal = nominal_mode(moved, c, mode);
        let costs = &space.costs[c as usize];
        space.rows.fill(model, c, mode, nominal, costs);
    }
}

/// Per component each mode that has a cost, with its least cost, by cost and then by mode. The error is out of memory.
pub fn choices(
    alloc: Global,
    compiled: &Compiled,
    state: &State,
    command: Option<u16>,
) -> Result<Choices, AllocError>
    requires { IsState compiled.now.model state.now.modes }
    ensures { IfOk result (λ c. AreChoices compiled.now.model state.now.modes command c.rows) }
{
    let mut space = ChoiceSpace::of(alloc, compiled.model())?;
    choices_in(compiled, state, command, &mut space);
    let rows = space.rows.copy(alloc)?;
    Ok(Choices { rows })
}
