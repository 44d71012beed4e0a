//! What an event line asks for.

use cca_base::Pair;

/// What an event line asks for. The pairs of a goal or of observations stand in the list that the reader was given.
#[derive(Clone, Copy, Debug)]
pub enum Asked {
    Goal,
    Clear,
    Observe,
    Fault(Pair),
    Mirror(u16),
    Reset,
    Tick,
}
