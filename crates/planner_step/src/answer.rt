//! What is answered for a goal.

/// What is done for a goal.
#[derive(Clone, Copy, Debug, PartialEq, Eq)]
pub enum Answer {
    /// The command is sent.
    Send(u16),
    /// The state holds the goal.
    Achieved,
    /// The goal's first pair that no allowed plan reaches.
    Unreachable(u16, u8),
}
