//! Copies of what the layers share.

use cca_base::*;
use conformance_parts::{list_of, pair};
use std::alloc::Global;
use std::test::*;

/// A copy of the state of these modes.
fn copied_state(alloc: Global, modes: &[u8]) -> Option<State> {
    let modes = list_of(alloc, modes)?;
    let state = State { modes };
    state.copy(alloc).ok()
}

/// Whether a copy of the state of these modes has them.
fn state_is_copied(alloc: Global, modes: &[u8]) -> bool {
    match copied_state(alloc, modes) {
        Some(copy) => copy.modes.as_slice() == modes,
        None => false,
    }
}

/// A copy of the cube of this pair.
fn copied_cube(alloc: Global, pair: Pair) -> Option<Cube> {
    let mut cube = Cube::new(alloc);
    cube.push(pair).ok()?;
    cube.copy(alloc).ok()
}

/// Whether a copy of the cube of this pair has it.
fn cube_is_copied(alloc: Global, pair: Pair) -> bool {
    match copied_cube(alloc, pair) {
        Some(copy) => copy.as_slice() == [pair].as_slice(),
        None => false,
    }
}

#[test]
fn lists_and_cubes_are_copied(rt: HostRuntime) {
    assert!(rt; state_is_copied(rt.alloc(), &[1]));
    assert!(rt; cube_is_copied(rt.alloc(), pair(3, 1)));
}
