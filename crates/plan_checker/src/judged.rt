//! The nine tests of a tick, in the order of their reasons.

ghost use Rattle.std.specs.Prelude.{◌↔◌, IsTrue, IfOk, IfSome};
ghost use Rattle.std.specs.Option.{option_copied};
ghost use Rattle.cca_base.specs.Prelude.{HasWorlds};
ghost use Rattle.consistency.specs.Spaces.{IsWorldSpace};
ghost use Rattle.plan_checker.specs.Checked.{OnYes};
ghost use Rattle.plan_checker.specs.Reasons.{OnEstimate, HasItsLines, HasItsCost, HasItsWorld, IsWritten, IsVerdict};
ghost use Rattle.plan_checker.specs.Routes.{IsSendVerdict, IsAnswerVerdict};
ghost use Rattle.plan_checker.specs.Standing.{FitsModel, KeepsPending};
ghost use Rattle.plan_checker.specs.Worlds.{SomeAreSeen};
ghost use Rattle.plan_checker.specs.Ticks.{printed_of};

use crate::answer::answers_goal;
use crate::cost::has_cost;
use crate::lines::has_its_lines;
use crate::reasons::{ANSWER, COST, LINE, LONG, WORLD};
use crate::route::check_route;
use crate::tick::Tick;
use crate::verdict::Verdict;
use crate::world::explains_tick;
use cca_base::{PlanEnd, Reply, Route, Shown};
use consistency::{Rules, WorldSpace};
use std::alloc::AllocError;
use trace_laws::Standing;

/// Whether an estimate has the printed cost. The error is out of memory.
fn has_its_cost(
    rules: &Rules,
    standing: &Standing,
    tick: &Tick,
    space: &mut Option<WorldSpace>,
) -> Result<bool, AllocError>
    requires fits { FitsModel rules.now.model.now standing.now }
    requires space { IfSome space.old (IsWorldSpace rules.now.worlds.now) }
    ensures cost { IfOk result (λ b.
        IsTrue b ↔ HasItsCost rules.now.model.now standing.now (printed_of tick.now)) }
    ensures space { IfSome space.new (IsWorldSpace rules.now.worlds.now) }
{
    let Shown::Estimated { cost, state, .. } = &tick.report.shown else {
        return Ok(true);
    };
    has_cost(
        rules,
        &standing.estimate,
        standing.command,
        state,
        *cost,
        space,
    )
}

/// Whether the printed values explain an estimate. The error is out of memory.
fn has_its_world(rules: &Rules, standing: &Standing, tick: &Tick) -> Result<bool, AllocError>
    requires all { HasWorlds rules.now.model.now }
    requires fits { FitsModel rules.now.model.now standing.now }
    requires pending { KeepsPending standing.now }
    requires lines { HasItsLines standing.now (printed_of tick.now) }
    requires cost { HasItsCost rules.now.model.now standing.now (printed_of tick.now) }
    ensures world { IfOk result (λ b.
        IsTrue b ↔ HasItsWorld rules.now.model.now standing.now (printed_of tick.now)) }
    ensures seen { IfOk result (λ b.
        IsTrue b → OnEstimate tick.now.report.now.shown (λ cost s reply.
        SomeAreSeen rules.now.model.now standing.now)) }
{
    let Shown::Estimated { state, .. } = &tick.report.shown else {
        return Ok(true);
    };
    let Some(world) = tick.world else {
        unreachable!()
    };
    explains_tick(rules, standing, state, world)
}

/// The verdict on a sent command and its route. The error is out of memory.
fn check_send(
    rules: &Rules,
    standing: &Standing,
    tick: &Tick,
    space: &mut Option<WorldSpace>,
) -> Result<Verdict, AllocError>
    requires lines { HasItsLines standing.now (printed_of tick.now) }
    requires cost { HasItsCost rules.now.model.now standing.now (printed_of tick.now) }
    requires space { IfSome space.old (IsWorldSpace rules.now.worlds.now) }
    ensures verdict { IfOk result (IsSendVerdict rules.now.model.now standing.now (printed_of tick.now)) }
    ensures space { IfSome space.new (IsWorldSpace rules.now.worlds.now) }
{
    let Shown::Estimated { state, reply, .. } = &tick.report.shown else {
        return Ok(Verdict::Yes);
    };
    let Reply::Send(command) = reply else {
        return Ok(Verdict::Yes);
    };
    let Some(route) = tick.route else {
        unreachable!()
    };
    check_route(rules, state, &standing.goal, *command, route, space)
}

/// Whether the commands are written out.
fn is_written(end: &PlanEnd) -> bool
    ensures { IsTrue result ↔ IsWritten end.now }
{
    matches!(end, PlanEnd::Plan(_))
}

/// Whether the plan and the way back are written out, where there is a route.
fn is_written_out(route: Option<&Route>) -> bool
    ensures { IsTrue result ↔ IfSome (option_copied route.entry) (λ r.
        IsWritten r.plan × IsWritten r.back) }
{
    match route {
        Some(route) => is_written(&route.plan) && is_written(&route.back),
        None => true,
    }
}

/// The verdict on the tests that come after the route's: the answer, and whether all is written out.
fn check_answer(standing: &Standing, tick: &Tick) -> Verdict
    ensures { IsAnswerVerdict standing.now (printed_of tick.now)
        result }
{
    if !answers_goal(standing, &tick.report.shown) {
        return Verdict::No(ANSWER);
    }
    if !is_written_out(tick.route) {
        return Verdict::No(LONG);
    }
    Verdict::Yes
}

/// The verdict on a tick. The error is out of memory.
pub(crate) fn judge(
    rules: &Rules,
    standing: &Standing,
    tick: &Tick,
    space: &mut Option<WorldSpace>,
) -> Result<Verdict, AllocError>
    requires all { HasWorlds rules.now.model.now }
    requires fits { FitsModel rules.now.model.now standing.now }
    requires pending { KeepsPending standing.now }
    requires space { IfSome space.old (IsWorldSpace rules.now.worlds.now) }
    ensures verdict { IfOk result (IsVerdict rules.now.model.now standing.now
        (printed_of tick.now)) }
    ensures seen { IfOk result (λ v.
        OnYes v (OnEstimate tick.now.report.now.shown (λ cost s reply.
        SomeAreSeen rules.now.model.now standing.now))) }
    ensures space { IfSome space.new (IsWorldSpace rules.now.worlds.now) }
{
    if !has_its_lines(standing, tick) {
        return Ok(Verdict::No(LINE));
    }
    if !has_its_cost(rules, standing, tick, space)? {
        return Ok(Verdict::No(COST));
    }
    if !has_its_world(rules, standing, tick)? {
        return Ok(Verdict::No(WORLD));
    }
    let sent = check_send(rules, standing, tick, space)?;
    if sent != Verdict::Yes {
        return Ok(sent);
    }
    Ok(check_answer(standing, tick))
}
