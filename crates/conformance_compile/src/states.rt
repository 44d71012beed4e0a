//! Which states have a world, by the model's clauses with its variables projected away.

ghost use Rattle.cca_base.specs.declared.limits.TheConstants.{MAX_COMPONENTS};

use crate::clauses::all_true;
use cca_base::{MAX_COMPONENTS, Model};
use clause_form::{Clauses, clauses_of};
use conformance_parts::{VALVE, model_of};
use elimination::project;
use std::alloc::Global;
use std::test::*;

/// Clauses over the model's components, met by the states that have a world.
fn states_of(alloc: Global, model: &Model) -> Option<Clauses> {
    let components = model.components().len();
    let clauses = clauses_of(alloc, model, None, None).ok()?;
    if components > clauses.sizes.len() || components > MAX_COMPONENTS {
        return None;
    }
    project(alloc, &clauses, components as u16).ok()
}

fn are_met(kept: &Clauses, states: &[[u8; 2]]) -> bool {
    for state in states {
        if !all_true(kept, state.as_slice()) {
            return false;
        }
    }
    true
}

fn meet_kept(alloc: Global, model: &Model, states: &[[u8; 2]]) -> bool {
    match states_of(alloc, model) {
        Some(kept) => are_met(&kept, states),
        None => false,
    }
}

/// Whether each of these states of the valve meets what is kept of its rules.
fn valve_meets(alloc: Global, states: &[[u8; 2]]) -> bool {
    match model_of(alloc, VALVE) {
        Some(model) => meet_kept(alloc, &model, states),
        None => false,
    }
}

#[test]
fn each_state_of_the_valve_meets_what_is_kept(rt: HostRuntime) {
    let states = [[0, 0], [0, 1], [0, 2], [1, 0], [1, 1], [1, 2]];
    assert!(rt; valve_meets(rt.alloc(), &states));
}
