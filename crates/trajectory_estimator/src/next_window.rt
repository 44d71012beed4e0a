//! The window of a tracker's next tick.

use crate::record::Record;
use cca_base::{List, State};

/// The window of a tick.
#[derive(Drop)]
pub(crate) struct NextWindow {
    /// How many records of the last window went.
    pub(crate) gone: usize,
    /// Where it begins.
    pub(crate) anchor: State,
    /// What is known of its ticks, the oldest first.
    pub(crate) records: List<Record>,
}
