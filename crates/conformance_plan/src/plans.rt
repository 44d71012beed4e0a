//! Whole plans and ways back.

ghost use Rattle.std.specs.Prelude.{IfSome};
ghost use Rattle.cca_base.specs.Prelude.{AreReached};
ghost use Rattle.planner_step.specs.Planning.{IsGoal};
ghost use Rattle.reversibility.specs.ClassParts.{CoversState};

use crate::tabled::*;
use cca_base::*;
use conformance_parts::{HUNG_UNIT, Pairs, STICKING_VALVE};
use plan_runner::{route_of, way_back, whole_plan};
use policy_tables::Tables;
use std::alloc::Global;
use std::test::*;

/// The state of these modes and the goal of these pairs, if it is reached from there.
fn reached(alloc: Global, tables: &Tables, modes: &[u8], pairs: Pairs<'_>) -> Option<(State, Goal)>
    ensures covers { IfSome result (λ r. CoversState tables.now.classes r.0.modes) }
    ensures goal { IfSome result (λ r. IsGoal tables.now.classes.compiled r.1.pairs) }
    ensures reached { IfSome result (λ r.
        AreReached tables.now.classes.compiled.model r.0.modes r.1.pairs) }
{
    let state = covered(alloc, tables, modes)?;
    let goal = goal_of(alloc, tables, pairs)?;
    if !is_reached(tables, &state, &goal) {
        return None;
    }
    Some((state, goal))
}

/// The whole plan from the state of these modes to the goal of these pairs.
fn planned(alloc: Global, tables: &Tables, modes: &[u8], pairs: Pairs<'_>) -> Option<PlanEnd> {
    let (state, goal) = reached(alloc, tables, modes, pairs)?;
    whole_plan(alloc, tables, &state, &goal).ok()
}

/// The way back from the state of these modes to the other's.
fn returned(alloc: Global, tables: &Tables, from: &[u8], to: &[u8]) -> Option<PlanEnd> {
    let from = covered(alloc, tables, from)?;
    let to = covered(alloc, tables, to)?;
    if !stays_stuck(tables, &from, &to) {
        return None;
    }
    way_back(alloc, tables, &from, &to).ok()
}

/// The whole plan from the state of these modes to the goal of these pairs, and the way back from its end.
fn routed(alloc: Global, tables: &Tables, modes: &[u8], pairs: Pairs<'_>) -> Option<Route> {
    let (state, goal) = reached(alloc, tables, modes, pairs)?;
    route_of(alloc, tables, &state, &goal).ok()
}

fn plans(alloc: Global, tables: &Tables, modes: &[u8], pairs: Pairs<'_>, names: &[&str]) -> bool {
    match planned(alloc, tables, modes, pairs) {
        Some(plan) => is_plan(tables, &plan, names),
        None => false,
    }
}

fn returns(alloc: Global, tables: &Tables, from: &[u8], to: &[u8], names: &[&str]) -> bool {
    match returned(alloc, tables, from, to) {
        Some(plan) => is_plan(tables, &plan, names),
        None => false,
    }
}

/// Whether the sticking valve's whole plan from its start to the goal has the commands of these names.
fn valve_plans(alloc: Global, pairs: Pairs<'_>, names: &[&str]) -> bool {
    match tables_of(alloc, STICKING_VALVE, &[0, 0]) {
        Some(tables) => plans(alloc, &tables, &[0, 0], pairs, names),
        None => false,
    }
}

/// Whether the sticking valve's way back from the state of these modes to its start has the commands of these names.
fn valve_returns(alloc: Global, from: &[u8], names: &[&str]) -> bool {
    match tables_of(alloc, STICKING_VALVE, &[0, 0]) {
        Some(tables) => returns(alloc, &tables, from, &[0, 0], names),
        None => false,
    }
}

#[test]
fn a_valve_opens_and_its_driver_goes_off(rt: HostRuntime) {
    assert!(rt;
        valve_plans(
            rt.alloc(),
            &[(0, 0), (1, 1)],
            &["drv_on", "v_open", "drv_off"]
        )
    );
}

#[test]
fn a_valve_closes_and_its_driver_goes_off(rt: HostRuntime) {
    assert!(rt; valve_returns(rt.alloc(), &[0, 1], &["drv_on", "v_close", "drv_off"]));
}

/// A model in which b's way back asks for a mode of c that only a repair leads to.
const MENDING: &str = "titan 1
component c = m, ok, z start m
component b = x, y start x
repair c m -> ok by c_reset when true
move c ok -> z by c_z when true
move c z -> ok by c_ok when true
move b x -> y by b_go when true
move b y -> x by b_back when c = z";

fn is_route(tables: &Tables, route: &Route, plan: &[&str], back: &[&str]) -> bool {
    is_plan(tables, &route.plan, plan) && is_plan(tables, &route.back, back)
}

fn routes(
    alloc: Global,
    tables: &Tables,
    question: (&[u8], Pairs<'_>),
    plan: &[&str],
    back: &[&str],
) -> bool {
    match routed(alloc, tables, question.0, question.1) {
        Some(route) => is_route(tables, &route, plan, back),
        None => false,
    }
}

/// Whether the plan from the start of a model to the goal, and the way back, have the commands of these names.
fn start_routes(
    alloc: Global,
    question: (&str, &[u8], Pairs<'_>),
    plan: &[&str],
    back: &[&str],
) -> bool {
    match tables_of(alloc, question.0, question.1) {
        Some(tables) => routes(alloc, &tables, (question.1, question.2), plan, back),
        None => false,
    }
}

#[test]
fn a_way_back_mends_what_it_needs(rt: HostRuntime) {
    let back = ["c_reset", "c_z", "b_back", "c_ok"];
    assert!(rt; start_routes(rt.alloc(), (MENDING, &[0, 0], &[(1, 1)]), &["b_go"], &back));
}

#[test]
fn a_hung_unit_is_mended_by_two_commands(rt: HostRuntime) {
    let plan = ["d_power", "drv_on", "d_reset"];
    assert!(rt;
        start_routes(
            rt.alloc(),
            (HUNG_UNIT, &[2, 0], &[(0, 0)]),
            &plan,
            &["drv_off"]
        )
    );
}
