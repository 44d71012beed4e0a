//! What a yes changes.

ghost use Rattle.std.specs.Prelude.{◌≡◌, ◌+◌, ◌<◌, ◌^◌, IfSome, OnOk, OnErr};
ghost use Rattle.cca_base.specs.Prelude.{IsState};
ghost use Rattle.consistency.specs.Spaces.{IsWorldSpace};
ghost use Rattle.plan_checker.specs.Checked.{Takes, TakesEstimate};

use crate::step::make_nominal;
use cca_base::{Reply, Shown, State, TickReport};
use consistency::{Rules, WorldSpace};
use std::alloc::AllocError;
use trace_laws::{Standing, command_of};

/// Takes an estimate and its reply as the last printed ones, and moves the plant. The error is out of memory.
fn take_estimate(
    rules: &Rules,
    standing: &mut Standing,
    state: &State,
    reply: Reply,
    tick: u64,
    space: &mut Option<WorldSpace>,
) -> Result<(), AllocError>
    requires plant { IsState rules.now.model.now standing.old.plant }
    requires next { tick ≡ standing.old.ticks + 1 }
    requires space { IfSome space.old (IsWorldSpace rules.now.worlds.now) }
    ensures takes { OnOk result (TakesEstimate rules.now.model.now standing.old state.now.modes
        reply standing.new) }
    ensures err { OnErr result (standing.new ≡ standing.old) }
    ensures space { IfSome space.new (IsWorldSpace rules.now.worlds.now) }
{
    let estimate = state.copy(rules.alloc)?;
    let command = command_of(reply);
    make_nominal(rules, &mut standing.plant, command, space)?;
    standing.estimate = estimate;
    standing.count(rules.alloc, command, tick);
    Ok(())
}

/// Takes what was printed as the last. The error is out of memory.
pub(crate) fn take(
    rules: &Rules,
    standing: &mut Standing,
    report: &TickReport,
    space: &mut Option<WorldSpace>,
) -> Result<(), AllocError>
    requires plant { IsState rules.now.model.now standing.old.plant }
    requires next { report.now.tick ≡ standing.old.ticks + 1 }
    requires space { IfSome space.old (IsWorldSpace rules.now.worlds.now) }
    ensures takes { OnOk result (Takes rules.now.model.now standing.old report.now.shown
        standing.new) }
    ensures err { OnErr result (standing.new ≡ standing.old) }
    ensures space { IfSome space.new (IsWorldSpace rules.now.worlds.now) }
{
    match &report.shown {
        Shown::Estimated { state, reply, .. } => {
            take_estimate(rules, standing, state, *reply, report.tick, space)?;
        }
        Shown::Unexplained => {
            standing.holding = true;
            standing.count(rules.alloc, None, report.tick);
        }
        Shown::Holding => standing.count(rules.alloc, None, report.tick),
    }
    Ok(())
}
