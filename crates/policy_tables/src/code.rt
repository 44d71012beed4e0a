//! Cells in few bytes, as tables keep them, and as they are read.

use cca_base::Cube;

/// What stands in a table for a cell.
#[derive(Clone, Copy, Debug)]
pub(crate) enum Code {
    /// The component stands there.
    Stay,
    /// The next move toward the mode.
    Step {
        /// The move's number in the model.
        number: u16,
        /// The move's command.
        command: u16,
        /// Which of the move's prime implicants has to stand first.
        way: usize,
        /// How many own moves are left, this one with them.
        left: u8,
    },
    /// It cannot come there.
    Never,
}

/// A cell as it is read: its cube stays where it is.
#[derive(Clone, Copy, Debug)]
pub enum CellRef<'a> {
    /// The component stands there.
    Stay,
    /// The next move toward the mode.
    Step {
        /// The move's number in the model.
        move_number: u16,
        /// The move's command.
        command: u16,
        /// What has to stand first, effects before their causes.
        cube: &'a Cube,
        /// How many own moves are left, this one with them.
        left: u8,
    },
    /// It cannot come there.
    Never,
}
