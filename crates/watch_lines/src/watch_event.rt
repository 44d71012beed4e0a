//! What a line behind a model says of a plant that somebody else commands.

use cca_base::{List, Pair};

/// What a line behind a model says of a plant that somebody else commands.
#[derive(Debug, Drop)]
pub enum WatchEvent {
    /// The command was sent before the next tick.
    Sent(u16),
    /// The variables have these values at the next tick.
    Observe(List<Pair>),
    /// All is as at the start, but tick numbers go on.
    Reset,
    /// The next tick comes.
    Tick,
}
