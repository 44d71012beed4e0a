//! Components that stand still through a window: no failure leads from the anchor's mode, and no command of the window moves it from there.

ghost use Rattle.std.specs.Prelude.{◌≡◌, ◌<◌, ℕ, All, IfOk, None, false, length, true};
ghost use Rattle.trajectory_estimator.specs.Steps.{NoOwn};
ghost use Rattle.trajectory_estimator.specs.Walks.{record_at};
ghost use Rattle.trajectory_estimator.specs.Windows.{AreStill, IsStill};

use crate::moved::own_target;
use crate::query::Query;
use cca_base::List;
use std::alloc::AllocError;

/// Whether there is a failure at all.
fn some_failure(failures: &[Option<u32>]) -> bool
    ensures { result ≡ false → All (λ o. o ≡ None) failures.now }
{
    for failure in failures {
        if failure.is_some() {
            return true;
        }
    }
    false
}

/// Whether a command of the window moves the component from the mode.
fn is_moved(query: &Query, component: u16, from: u8) -> bool
    ensures { result ≡ false → (at : ℕ) → at < length query.now.records → NoOwn query.now.model component (record_at query.now at).command from }
{
    let records = query.records();
    for at in 0..records.len() {
        let own = own_target(query.model(), component, records[at].command, from);
        if own.is_some() {
            return true;
        }
    }
    false
}

/// Whether the component stands still. True comes only where it does.
fn is_still(query: &Query, component: u16) -> bool
    requires { component < length query.now.model.components }
    ensures { result ≡ true → IsStill query.now component }
{
    let from = *query.anchor().modes.get(component as usize);
    if is_moved(query, component, from) {
        return false;
    }
    !some_failure(query.changes().row(component, from))
}

/// Which components stand still. The error is out of memory.
pub(crate) fn still_components(query: &Query) -> Result<List<bool>, AllocError>
    ensures { IfOk result (AreStill query.now) }
{
    let mut still = List::new(query.alloc());
    for component in 0..query.model().components().len() {
        still.push(is_still(query, component as u16))?;
    }
    Ok(still)
}
