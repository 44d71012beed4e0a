//! At which tick two lists of states differ first.

ghost use Rattle.std.specs.Prelude.{◌≡◌, ◌≤◌, ◌+◌, ◌^◌, IfOk, length};
ghost use Rattle.trajectory_estimator.specs.Asked.{modes_of};
ghost use Rattle.window_laws.specs.Ticks.{IsRevised};

use cca_base::{List, State};
use std::alloc::{AllocError, Global};

/// The same states. The error is out of memory.
pub(crate) fn copy_states(alloc: Global, states: &[State]) -> Result<List<State>, AllocError>
    ensures { IfOk result (λ l. modes_of l ≡ modes_of states.now) }
{
    let mut copies = List::new(alloc);
    for state in states {
        copies.push(state.copy(alloc)?)?;
    }
    Ok(copies)
}

/// The number of the first tick at which both have a state, and not the same, where the first one's number is this. None comes
/// exactly where there is no such tick.
pub(crate) fn revised(tick: u64, old: &[State], new: &[State]) -> Option<u64>
    requires { tick + length new.now ≤ 2 ^ 64 }
    ensures { IsRevised tick (modes_of old.now) (modes_of new.now) result }
{
    for (at, state) in new.iter().enumerate() {
        if at >= old.len() {
            return None;
        }
        if old[at].modes.as_slice() != state.modes.as_slice() {
            return Some(tick + at as u64);
        }
    }
    None
}
