//! The pairs of a state that are to blame for what no world of it shows.

use crate::worlds::first_state;
use cca_base::{Cube, Model, Pair};
use conformance_parts::{Pairs, VALVE, model_of, pair, seen};
use consistency::{Worlds, conflict};
use std::alloc::Global;
use std::test::*;

/// The conflict of the first state of these modes with what is seen; nothing where memory runs out.
fn conflict_of(
    alloc: Global,
    model: &Model,
    modes: Pairs<'_>,
    observed: Pairs<'_>,
) -> Option<Option<Cube>> {
    let observed = seen(alloc, model, observed)?;
    let state = first_state(alloc, model, modes)?;
    conflict(alloc, model, &state, &observed).ok()
}

/// The same in the model of this text.
fn blame(alloc: Global, text: &str, modes: Pairs<'_>, observed: Pairs<'_>) -> Option<Option<Cube>> {
    let model = model_of(alloc, text)?;
    conflict_of(alloc, &model, modes, observed)
}

/// Whether the conflict of the first state of these modes with what is seen has these pairs.
fn are_to_blame(
    alloc: Global,
    text: &str,
    modes: Pairs<'_>,
    observed: Pairs<'_>,
    pairs: &[Pair],
) -> bool {
    match blame(alloc, text, modes, observed) {
        Some(Some(cube)) => cube.as_slice() == pairs,
        _ => false,
    }
}

/// Whether a world of the first state of these modes agrees with what is seen.
fn is_shown(alloc: Global, text: &str, modes: Pairs<'_>, observed: Pairs<'_>) -> bool {
    match blame(alloc, text, modes, observed) {
        Some(None) => true,
        _ => false,
    }
}

/// A minimal clash of the first state of these modes with what is seen; nothing where memory runs out.
fn clash_of(
    alloc: Global,
    model: &Model,
    modes: Pairs<'_>,
    observed: Pairs<'_>,
) -> Option<Option<Cube>> {
    let worlds = Worlds::of(alloc, model).ok()?;
    let observed = seen(alloc, model, observed)?;
    let state = first_state(alloc, model, modes)?;
    worlds.minimal_clash(alloc, model, &state, &observed).ok()
}

/// The same in the model of this text.
fn least(alloc: Global, text: &str, modes: Pairs<'_>, observed: Pairs<'_>) -> Option<Option<Cube>> {
    let model = model_of(alloc, text)?;
    clash_of(alloc, &model, modes, observed)
}

/// Whether a minimal clash of the first state of these modes with what is seen has these pairs, or there are none and it is shown.
fn clash(alloc: Global, text: &str, modes: Pairs<'_>, observed: Pairs<'_>, pairs: &[Pair]) -> bool {
    match least(alloc, text, modes, observed) {
        Some(Some(cube)) => cube.as_slice() == pairs,
        Some(None) => pairs.is_empty(),
        None => false,
    }
}

#[test]
fn the_open_valve_clashes(rt: HostRuntime) {
    let modes = [(0, 1), (1, 1)];
    assert!(rt; clash(rt.alloc(), VALVE, &modes, &[(0, 0)], &[pair(1, 1)]));
    assert!(rt; clash(rt.alloc(), VALVE, &modes, &[(0, 1)], &[]));
}

#[test]
fn the_open_valve_is_to_blame(rt: HostRuntime) {
    let modes = [(0, 1), (1, 1)];
    assert!(rt; are_to_blame(rt.alloc(), VALVE, &modes, &[(0, 0)], &[pair(1, 1)]));
    assert!(rt; is_shown(rt.alloc(), VALVE, &modes, &[(0, 1)]));
}
