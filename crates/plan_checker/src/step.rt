//! One command: the move that it names, its step, and its nominal move.

ghost use Rattle.std.specs.Prelude.{◌≡◌, ◌↔◌, ◌<◌, length, slice_get, Some, IsTrue, IfOk, OnOk, OnErr, IfSome, IsNone, false};
ghost use Rattle.cca_base.specs.Prelude.{IsState, Nominal, Step, WellFormed};
ghost use Rattle.consistency.specs.Spaces.{IsWorldSpace};
ghost use Rattle.plan_checker.specs.Steps.{IsNamed, NoneNamed, NoStep};

use crate::guards::{guard_follows, guard_holds};
use cca_base::{Model, Move, State};
use consistency::{Rules, WorldSpace};
use std::alloc::AllocError;

/// The move that the command names from its component's mode. None comes exactly where it names none.
fn named<'a>(model: &'a Model, state: &State, command: u16) -> Option<&'a Move>
    requires { IsState model.now state.now.modes }
    ensures some { IfSome result (λ x. IsNamed model.now state.now.modes command x.now) }
    ensures none { IsNone result → NoneNamed model.now state.now.modes command }
    ensures well_formed { WellFormed model.now }
{
    let moves = model.moves();
    let number = model.named(state, command)?;
    Some(moves.get(number as usize))
}

/// Makes the command's step, where it is one. The error is out of memory.
pub(crate) fn make_step(
    rules: &Rules,
    state: &mut State,
    command: u16,
    space: &mut Option<WorldSpace>,
) -> Result<bool, AllocError>
    requires state { IsState rules.now.model.now state.old.modes }
    requires space { IfSome space.old (IsWorldSpace rules.now.worlds.now) }
    ensures made { IfOk result (λ made.
        IsTrue made → Step rules.now.model.now state.old.modes command state.new.modes) }
    ensures none { IfOk result (λ made.
        made ≡ false → NoStep rules.now.model.now state.old.modes command) }
    ensures state { IsState rules.now.model.now state.new.modes }
    ensures space { IfSome space.new (IsWorldSpace rules.now.worlds.now) }
{
    let Some(step) = named(rules.model, state, command) else {
        return Ok(false);
    };
    if !guard_follows(rules, state, step, space)? {
        return Ok(false);
    }
    state.modes.set(step.component as usize, step.target);
    Ok(true)
}

/// Makes the nominal move of the command, if there is one. The error is out of memory.
pub(crate) fn make_nominal(
    rules: &Rules,
    state: &mut State,
    command: Option<u16>,
    space: &mut Option<WorldSpace>,
) -> Result<(), AllocError>
    requires state { IsState rules.now.model.now state.old.modes }
    requires space { IfSome space.old (IsWorldSpace rules.now.worlds.now) }
    ensures nominal { OnOk result (Nominal rules.now.model.now state.old.modes command
        state.new.modes) }
    ensures state { IsState rules.now.model.now state.new.modes }
    ensures err { OnErr result (state.new ≡ state.old) }
    ensures space { IfSome space.new (IsWorldSpace rules.now.worlds.now) }
{
    let Some(command) = command else {
        return Ok(());
    };
    let Some(step) = named(rules.model, state, command) else {
        return Ok(());
    };
    if guard_holds(rules, state, step, space)? {
        state.modes.set(step.component as usize, step.target);
    }
    Ok(())
}
