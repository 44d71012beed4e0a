//! What a tick's estimate is.

use cca_base::State;

/// What a tick's observations say of the plant.
#[derive(Debug, Drop)]
pub enum Estimate {
    /// The least-cost state that agrees with them.
    Found {
        state: State,
        /// What it costs.
        cost: u64,
    },
    /// No state agrees with them.
    Unexplained,
}
