//! Whether a control program goes on.

/// Whether a control program goes on.
#[derive(Clone, Copy, Debug)]
pub enum ProgramEnd {
    /// Further lines are to come.
    Going,
    /// It has ended, and the whole program was read.
    Whole,
}
