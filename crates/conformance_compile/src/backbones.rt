//! Values that all worlds of a state have.

use crate::worlds::first_state;
use cca_base::{Model, Pair, Seen, VarSet};
use conformance_parts::{Pairs, VALVE, model_of, pair};
use consistency::forced;
use std::alloc::Global;
use std::test::*;

/// The values that these variables have in every world of the first state of these modes.
fn forced_of(alloc: Global, model: &Model, modes: Pairs<'_>, vars: VarSet) -> Option<Seen> {
    let state = first_state(alloc, model, modes)?;
    forced(alloc, model, &state, vars).ok()
}

fn is_forced(alloc: Global, model: &Model, modes: Pairs<'_>, vars: VarSet, pairs: &[Pair]) -> bool {
    match forced_of(alloc, model, modes, vars) {
        Some(answer) => answer.pairs.as_slice() == pairs,
        None => false,
    }
}

/// Whether these pairs are the values that these variables have in every world of the first state of these modes.
fn are_forced(alloc: Global, text: &str, modes: Pairs<'_>, vars: VarSet, pairs: &[Pair]) -> bool {
    match model_of(alloc, text) {
        Some(model) => is_forced(alloc, &model, modes, vars, pairs),
        None => false,
    }
}

#[test]
fn an_open_valve_forces_the_flow(rt: HostRuntime) {
    let flow = VarSet::empty().with(0);
    let modes = [(0, 1), (1, 1)];
    assert!(rt; are_forced(rt.alloc(), VALVE, &modes, flow, &[pair(0, 1)]));
    assert!(rt; are_forced(rt.alloc(), VALVE, &modes, VarSet::empty(), &[]));
}
