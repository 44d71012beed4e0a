//! A state with its cost.

use cca_base::State;

/// A state with what it costs.
#[derive(Debug, Drop)]
pub struct Costed {
    pub state: State,
    pub cost: u64,
}
