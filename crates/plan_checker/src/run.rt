//! Commands one after the other.

ghost use Rattle.std.specs.Prelude.{◌≡◌, false, IsTrue, IfOk, IfSome};
ghost use Rattle.cca_base.specs.Prelude.{IsState, Run};
ghost use Rattle.consistency.specs.Spaces.{IsWorldSpace};
ghost use Rattle.plan_checker.specs.Steps.{NoRun};

use crate::step::make_step;
use cca_base::State;
use consistency::{Rules, WorldSpace};
use std::alloc::AllocError;

/// Makes the commands' steps, up to the first one that is none. The error is out of memory.
pub(crate) fn run(
    rules: &Rules,
    state: &mut State,
    commands: &[u16],
    space: &mut Option<WorldSpace>,
) -> Result<bool, AllocError>
    requires state { IsState rules.now.model.now state.old.modes }
    requires space { IfSome space.old (IsWorldSpace rules.now.worlds.now) }
    ensures made { IfOk result (λ made.
        IsTrue made → Run rules.now.model.now state.old.modes commands.now state.new.modes) }
    ensures none { IfOk result (λ made.
        made ≡ false → NoRun rules.now.model.now state.old.modes commands.now) }
    ensures state { IsState rules.now.model.now state.new.modes }
    ensures space { IfSome space.new (IsWorldSpace rules.now.worlds.now) }
{
    let _moves = rules.model.moves();
    for command in commands {
        if !make_step(rules, state, *command, space)? {
            return Ok(false);
        }
    }
    Ok(true)
}
