//! Whole plans, and the ways back from where they lead.

ghost use Rattle.std.specs.Prelude.{IfOk};
ghost use Rattle.cca_base.specs.Prelude.{AreReached, IsRoute};
ghost use Rattle.reversibility.specs.ClassParts.{CoversState};
ghost use Rattle.planner_step.specs.Planning.{IsGoal};
ghost use Rattle.plan_runner.specs.Plans.{IsWholePlan};
ghost use Rattle.plan_runner.specs.WaysBack.{IsThereAndBack, IsWholeWayBack, StaysStuck};

use crate::goal_back::back_goal;
use crate::walked::{Walked, walk};
use cca_base::{Goal, PlanEnd, Route, State};
use policy_tables::Tables;
use std::alloc::{AllocError, Global};
use std::marker::Brand;
use std::sync::ledger::Blank;

/// The commands that bring the goal about, or that they are more than `MAX_PLAN`. The error is out of memory.
pub fn whole_plan(
    alloc: Global,
    tables: &Tables,
    state: &State,
    goal: &Goal,
) -> Result<PlanEnd, AllocError>
    requires covers { CoversState tables.now.classes state.now.modes }
    requires goal { IsGoal tables.now.classes.compiled goal.now.pairs }
    requires reached { AreReached tables.now.classes.compiled.model state.now.modes goal.now.pairs }
    ensures { IfOk result (IsWholePlan tables.now state.now.modes goal.now.pairs) }
{
    let _classes = tables.classes();
    match walk::<Brand>(alloc, tables, state, goal, Blank::new(1))? {
        Walked::Ended { plan, end: _ } => Ok(PlanEnd::Plan(plan)),
        Walked::Endless => Ok(PlanEnd::Long),
    }
}

/// The commands from one state back to where another one stood, or that they are more than `MAX_PLAN`. The error is out
/// of memory.
pub fn way_back(
    alloc: Global,
    tables: &Tables,
    from: &State,
    to: &State,
) -> Result<PlanEnd, AllocError>
    requires from { CoversState tables.now.classes from.now.modes }
    requires to { CoversState tables.now.classes to.now.modes }
    requires stuck { StaysStuck tables.now.classes from.now.modes to.now.modes }
    ensures { IfOk result (IsWholeWayBack tables.now from.now.modes to.now.modes) }
{
    let _classes = tables.classes();
    let goal = back_goal(alloc, tables, to)?;
    whole_plan(alloc, tables, from, &goal)
}

/// The commands for the goal, and those back from where they lead; both are long where the first are. The error is out
/// of memory.
pub fn route_of(
    alloc: Global,
    tables: &Tables,
    state: &State,
    goal: &Goal,
) -> Result<Route, AllocError>
    requires covers { CoversState tables.now.classes state.now.modes }
    requires goal { IsGoal tables.now.classes.compiled goal.now.pairs }
    requires reached { AreReached tables.now.classes.compiled.model state.now.modes goal.now.pairs }
    ensures route { IfOk result (IsRoute tables.now.classes.compiled state.now.modes
        goal.now.pairs) }
    ensures there_and_back { IfOk result (IsThereAndBack tables.now state.now.modes
        goal.now.pairs) }
{
    let _classes = tables.classes();
    match walk::<Brand>(alloc, tables, state, goal, Blank::new(1))? {
        Walked::Ended { plan, end } => {
            let back = way_back(alloc, tables, &end, state)?;
            Ok(Route {
                plan: PlanEnd::Plan(plan),
                back,
            })
        }
        Walked::Endless => Ok(Route {
            plan: PlanEnd::Long,
            back: PlanEnd::Long,
        }),
    }
}
