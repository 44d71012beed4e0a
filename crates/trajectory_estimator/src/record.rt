//! What is known of one tick.

ghost use Rattle.std.specs.Prelude.{◌≡◌, ◌≤◌, ◌++◌, ◌∷◌, [], IfOk, drop, length, map};
ghost use Rattle.trajectory_estimator.specs.Asked.{entry_of};
ghost use Rattle.trajectory_estimator.specs.declared.record.TheConstants.{MAX_WINDOW};

use cca_base::{List, Seen};
use std::alloc::{AllocError, Global};

/// The most ticks that a window has.
pub const MAX_WINDOW: usize = 8;

/// The limit by its number.
pub fn window_is_fixed()
    ensures { MAX_WINDOW ≡ 8 }
{}

/// What is known of one tick.
#[derive(Debug, Drop)]
pub struct Record {
    /// The command that was sent before it, if there was one. It may be one that moves nothing.
    pub command: Option<u16>,
    /// What was observed.
    pub seen: Seen,
}

impl Record {
    /// The same record. The error is out of memory.
    fn copy(&self, alloc: Global) -> Result<Record, AllocError>
        ensures { IfOk result (λ r. entry_of r ≡ entry_of self.now) }
    {
        let pairs = self.seen.pairs.copy(alloc)?;
        Ok(Record {
            command: self.command,
            seen: Seen { pairs },
        })
    }
}

/// The records behind the first ones, and one more. The error is out of memory.
pub(crate) fn records_with(
    alloc: Global,
    records: &[Record],
    gone: usize,
    entry: Record,
) -> Result<List<Record>, AllocError>
    requires { gone ≤ length records.now }
    ensures { IfOk result (λ l.
        map entry_of l ≡ drop gone (map entry_of records.now) ++ entry_of entry ∷ []) }
{
    let mut kept = List::new(alloc);
    for record in &records[gone..] {
        kept.push(record.copy(alloc)?)?;
    }
    kept.push(entry)?;
    Ok(kept)
}
