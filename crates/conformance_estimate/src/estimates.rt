//! Choices, searches by cost, and estimates by themselves.

ghost use Rattle.std.specs.Prelude.{IfSome};
ghost use Rattle.cca_base.specs.Prelude.{AreRows};

use acceptance::accept;
use cca_base::*;
use conformance_parts::{Pairs, STICKING_VALVE, model_of, pair, seen};
use cost_search::Search;
use mode_estimator::{Estimate, estimate};
use std::alloc::Global;
use std::test::*;
use successors::{Plant, choices};

/// What is compiled of the model of this text.
fn compiled_of(alloc: Global, text: &str) -> Option<Compiled> {
    let model = model_of(alloc, text)?;
    accept(alloc, model).ok()
}

/// What the components may become where the valve is to open and the first command came before.
fn next_choices(alloc: Global, compiled: &Compiled) -> Option<Choices>
    ensures { IfSome result (λ c. AreRows c.rows) }
{
    let mut plant = Plant::open(alloc, compiled).ok()?;
    plant.command(compiled, 0);
    choices(alloc, compiled, plant.state(), Some(2)).ok()
}

/// What the valve may become where it is to open and its driver is on.
fn opening(alloc: Global) -> Option<Choices>
    ensures { IfSome result (λ c. AreRows c.rows) }
{
    let compiled = compiled_of(alloc, STICKING_VALVE)?;
    next_choices(alloc, &compiled)
}

fn is_choice(choice: &Choice, wanted: (u8, u64)) -> bool {
    choice.mode == wanted.0 && choice.cost == wanted.1
}

fn is_row(row: &[Choice], wanted: &[(u8, u64)]) -> bool {
    if row.len() != wanted.len() {
        return false;
    }
    for i in 0..row.len() {
        if !is_choice(&row[i], wanted[i]) {
            return false;
        }
    }
    true
}

fn are_rows(rows: &[List<Choice>], wanted: &[&[(u8, u64)]]) -> bool {
    if rows.len() != wanted.len() {
        return false;
    }
    for i in 0..rows.len() {
        if !is_row(rows[i].as_slice(), wanted[i]) {
            return false;
        }
    }
    true
}

/// Whether the rows of what the components may become have these modes and costs.
fn opens_by(alloc: Global, rows: &[&[(u8, u64)]]) -> bool {
    match opening(alloc) {
        Some(choices) => are_rows(choices.rows.as_slice(), rows),
        None => false,
    }
}

#[test]
fn a_valve_opens_or_sticks(rt: HostRuntime) {
    assert!(rt; opens_by(rt.alloc(), &[&[(1, 0)], &[(1, 0), (2, 4)]]));
}

/// The search through what the valve may become.
fn opening_search(alloc: Global) -> Option<Search> {
    let choices = opening(alloc)?;
    Search::of(alloc, choices).ok()
}

/// Whether the search gives these modes with this cost next.
fn is_next(states: &mut Search, modes: &[u8], cost: u64) -> bool {
    match states.next() {
        Ok(Some(costed)) => costed.state.modes.as_slice() == modes && costed.cost == cost,
        _ => false,
    }
}

fn has_ended(states: &mut Search) -> bool {
    match states.next() {
        Ok(None) => true,
        _ => false,
    }
}

/// Whether the search gives exactly these modes with their costs, in this order.
fn gives(states: &mut Search, rows: &[(&[u8], u64)]) -> bool {
    for row in rows {
        if !is_next(states, row.0, row.1) {
            return false;
        }
    }
    has_ended(states)
}

fn opening_gives(alloc: Global, rows: &[(&[u8], u64)]) -> bool {
    match opening_search(alloc) {
        Some(mut states) => gives(&mut states, rows),
        None => false,
    }
}

#[test]
fn states_rise_by_cost(rt: HostRuntime) {
    assert!(rt; opening_gives(rt.alloc(), &[(&[1, 1], 0), (&[1, 2], 4)]));
}

/// Cuts off the states in which the component has the mode.
fn cuts(alloc: Global, states: &mut Search, component: u16, mode: u8) -> bool {
    let mut cube = Cube::new(alloc);
    match cube.push(pair(component, mode)) {
        Ok(()) => states.cut(cube).is_ok(),
        Err(_) => false,
    }
}

/// The same where the states are cut off in which the component has the mode.
fn cut_gives(alloc: Global, (component, mode): (u16, u8), rows: &[(&[u8], u64)]) -> bool {
    match opening_search(alloc) {
        Some(mut states) => cuts(alloc, &mut states, component, mode) && gives(&mut states, rows),
        None => false,
    }
}

#[test]
fn what_is_cut_is_not_given(rt: HostRuntime) {
    assert!(rt; cut_gives(rt.alloc(), (1, 1), &[(&[1, 2], 4)]));
}

/// The estimate from the start modes without a command.
fn estimated(alloc: Global, compiled: &Compiled, observed: Pairs<'_>) -> Option<Estimate> {
    let observed = seen(alloc, compiled.model(), observed)?;
    let plant = Plant::open(alloc, compiled).ok()?;
    estimate(alloc, compiled, plant.state(), None, &observed).ok()
}

/// The same of the model of this text.
fn estimate_of(alloc: Global, text: &str, observed: Pairs<'_>) -> Option<Estimate> {
    let compiled = compiled_of(alloc, text)?;
    estimated(alloc, &compiled, observed)
}

/// Whether what is observed is explained by these modes with this cost.
fn explains(alloc: Global, text: &str, observed: Pairs<'_>, modes: &[u8], cost: u64) -> bool {
    match estimate_of(alloc, text, observed) {
        Some(Estimate::Found { state, cost: found }) => {
            state.modes.as_slice() == modes && found == cost
        }
        _ => false,
    }
}

/// A pump and a pipe, either of which stops the flow by a failure of one cost.
const PIPE: &str = "titan 1
component pump = on, dead start on
component pipe = fine, burst start fine
var flow = none, some sensed
rule flow = some iff pump = on and pipe = fine
fail pump on -> dead cost 5
fail pipe fine -> burst cost 5";

#[test]
fn the_first_in_mode_order_breaks_a_tie(rt: HostRuntime) {
    assert!(rt; explains(rt.alloc(), PIPE, &[(0, 0)], &[0, 1], 5));
}
