//! A command with its printed plan and way back.

ghost use Rattle.std.specs.Prelude.{◌≡◌, ◌↔◌, ◌∷◌, ℕ, List, IsTrue, IfOk, IfSome, IsNone};
ghost use Rattle.std.specs.Option.{option_map};
ghost use Rattle.cca_base.specs.Prelude.{Extends, IsState};
ghost use Rattle.consistency.specs.Spaces.{IsWorldSpace};
ghost use Rattle.plan_checker.specs.Reasons.{OnCommands};
ghost use Rattle.plan_checker.specs.Routes.{IsRouteVerdict, EndsInMending};

use crate::reasons::{BACK, GOAL, PLAN, STEP};
use crate::run::run;
use crate::step::make_step;
use crate::verdict::Verdict;
use cca_base::{Goal, PlanEnd, Route, State};
use consistency::{Rules, WorldSpace, stand_in};
use std::alloc::AllocError;

/// Whether the goal in force stands, if there is one.
fn holds_goal(goal: &Option<Goal>, state: &State) -> bool
    ensures { IsTrue result ↔ IfSome (option_map (λ g.
        g.pairs) goal.now) (Extends state.now.modes) }
{
    match goal {
        Some(goal) => stand_in(goal.pairs.as_slice(), state.modes.as_slice()),
        None => true,
    }
}

/// The commands behind the first one. None comes exactly where they don't begin with this one.
fn rest_of(commands: &[u16], command: u16) -> Option<&[u16]>
    ensures some { IfSome result (λ rest. commands.now ≡ command ∷ rest.now) }
    ensures none { IsNone result → (others : List ℕ) → commands.now ≡ command ∷ others → ⊥ }
{
    if commands.is_empty() {
        return None;
    }
    if commands[0] != command {
        return None;
    }
    Some(&commands[1..])
}

/// Whether the commands, if they are written out, lead home to a mending of the first state. The error is out of memory.
fn leads_home(
    rules: &Rules,
    home: &State,
    there: State,
    back: &PlanEnd,
    space: &mut Option<WorldSpace>,
) -> Result<bool, AllocError>
    requires there { IsState rules.now.model.now there.modes }
    requires space { IfSome space.old (IsWorldSpace rules.now.worlds.now) }
    ensures leads { IfOk result (λ b.
        IsTrue b ↔ OnCommands back.now
        (EndsInMending rules.now.model.now home.now.modes there.modes)) }
    ensures space { IfSome space.new (IsWorldSpace rules.now.worlds.now) }
{
    let _moves = rules.model.moves();
    let PlanEnd::Plan(commands) = back else {
        return Ok(true);
    };
    let mut state = there;
    if !run(rules, &mut state, commands.as_slice(), space)? {
        return Ok(false);
    }
    Ok(rules.model.is_mending(home, &state))
}

/// The verdict on a command, and on its plan and way back as far as they are written out. The error is out of memory.
pub(crate) fn check_route(
    rules: &Rules,
    state: &State,
    goal: &Option<Goal>,
    command: u16,
    route: &Route,
    space: &mut Option<WorldSpace>,
) -> Result<Verdict, AllocError>
    requires state { IsState rules.now.model.now state.now.modes }
    requires space { IfSome space.old (IsWorldSpace rules.now.worlds.now) }
    ensures verdict { IfOk result (IsRouteVerdict rules.now.model.now state.now.modes
        (option_map (λ g. g.pairs) goal.now) command route.now) }
    ensures space { IfSome space.new (IsWorldSpace rules.now.worlds.now) }
{
    let _moves = rules.model.moves();
    let mut there = state.copy(rules.alloc)?;
    if !make_step(rules, &mut there, command, space)? {
        return Ok(Verdict::No(STEP));
    }
    let PlanEnd::Plan(plan) = &route.plan else {
        return Ok(Verdict::Yes);
    };
    let Some(rest) = rest_of(plan.as_slice(), command) else {
        return Ok(Verdict::No(PLAN));
    };
    if !run(rules, &mut there, rest, space)? {
        return Ok(Verdict::No(PLAN));
    }
    if !holds_goal(goal, &there) {
        return Ok(Verdict::No(GOAL));
    }
    if !leads_home(rules, state, there, &route.back, space)? {
        return Ok(Verdict::No(BACK));
    }
    Ok(Verdict::Yes)
}
