//! The states that stand in the chains of another.

use conformance_parts::{HUNG_UNIT, model_of, state_of};
use std::alloc::Global;
use std::test::*;

/// Whether the state of these modes is a mending of the other's, in the model of this text.
fn is_mending(alloc: Global, text: &str, from: &[u8], to: &[u8]) -> Option<bool> {
    let model = model_of(alloc, text)?;
    let from = state_of(alloc, &model, from)?;
    let to = state_of(alloc, &model, to)?;
    Some(model.is_mending(&from, &to))
}

#[test]
fn a_mending_stands_in_the_chain(rt: HostRuntime) {
    assert!(rt; is_mending(rt.alloc(), HUNG_UNIT, &[2, 0], &[2, 0]) == Some(true));
    assert!(rt; is_mending(rt.alloc(), HUNG_UNIT, &[2, 0], &[1, 0]) == Some(true));
    assert!(rt; is_mending(rt.alloc(), HUNG_UNIT, &[2, 0], &[0, 0]) == Some(true));
    assert!(rt; is_mending(rt.alloc(), HUNG_UNIT, &[1, 0], &[2, 0]) == Some(false));
    assert!(rt; is_mending(rt.alloc(), HUNG_UNIT, &[0, 0], &[1, 0]) == Some(false));
    assert!(rt; is_mending(rt.alloc(), HUNG_UNIT, &[2, 0], &[1, 1]) == Some(false));
}
