//! States one after the other.

use cca_base::{List, State};

/// One state for each record of a window.
#[derive(Debug, Drop)]
pub struct Trajectory {
    /// The oldest first.
    pub states: List<State>,
    /// What all its changes cost together.
    pub cost: u64,
}
