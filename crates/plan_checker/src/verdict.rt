//! What is said of a tick.

/// Whether a tick passes all tests.
#[derive(Clone, Copy, Debug, PartialEq, Eq)]
pub enum Verdict {
    Yes,
    /// The least reason whose test fails.
    No(u8),
}
