//! What a tick of a tracker answers.

use crate::trajectory::Trajectory;

/// What a tick of a tracker answers.
#[derive(Debug, Drop)]
pub enum Window {
    /// The best trajectory of the window.
    Found {
        path: Trajectory,
        /// The number of the first tick at which it has another state than the last best one had, among the ticks of both.
        revised: Option<u64>,
    },
    /// No trajectory explains what was seen in the window.
    Unexplained,
    /// An earlier tick was unexplained, and no reset came since.
    Holding,
}
