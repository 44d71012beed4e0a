//! Goals in effects-first order, and their bounds.

use acceptance::accept;
use causal_graph::sort_goal;
use cca_base::{Compiled, Goal, Pair};
use conformance_parts::{Pairs, model_of, pair, pairs_of};
use std::alloc::Global;
use std::test::*;

/// A driver and the valve that it powers.
const POWERED_VALVE: &str = "titan 1
component drv = off, on start off
component valve = closed, open, stuck start closed
move valve closed -> open by v_open when drv = on";

/// What is compiled of the powered valve.
fn powered_valve(alloc: Global) -> Option<Compiled> {
    let model = model_of(alloc, POWERED_VALVE)?;
    accept(alloc, model).ok()
}

/// The goal of these pairs, sorted.
fn sorted(alloc: Global, compiled: &Compiled, pairs: Pairs<'_>) -> Option<Goal> {
    let pairs = pairs_of(alloc, compiled.model(), pairs)?;
    sort_goal(alloc, compiled, &pairs).ok()
}

/// The bound of the goal of these pairs.
fn bound_of(alloc: Global, compiled: &Compiled, pairs: Pairs<'_>) -> Option<u64> {
    let pairs = pairs_of(alloc, compiled.model(), pairs)?;
    Some(compiled.bound_of_goal(&Goal { pairs }))
}

fn sorts(alloc: Global, compiled: &Compiled, pairs: Pairs<'_>, wanted: &[Pair]) -> bool {
    match sorted(alloc, compiled, pairs) {
        Some(goal) => goal.pairs.as_slice() == wanted,
        None => false,
    }
}

/// Whether the goal of these pairs has this order on the powered valve.
fn valve_sorts(alloc: Global, pairs: Pairs<'_>, wanted: &[Pair]) -> bool {
    match powered_valve(alloc) {
        Some(compiled) => sorts(alloc, &compiled, pairs, wanted),
        None => false,
    }
}

/// The bound of the goal of these pairs on the powered valve.
fn valve_bound(alloc: Global, pairs: Pairs<'_>) -> Option<u64> {
    let compiled = powered_valve(alloc)?;
    bound_of(alloc, &compiled, pairs)
}

#[test]
fn a_goal_is_sorted_effects_first_and_its_bounds_add_up(rt: HostRuntime) {
    let pairs = [(0, 0), (1, 1)];
    assert!(rt; valve_sorts(rt.alloc(), &pairs, &[pair(1, 1), pair(0, 0)]));
    assert!(rt; valve_bound(rt.alloc(), &pairs) == Some(5));
}
