//! What a line behind a model asks for.

use cca_base::{Formula, List, Pair};

/// What a line behind a model asks for.
#[derive(Debug, Drop)]
pub enum Request {
    /// The component's mode has this weight from now on.
    Weight { pair: Pair, weight: u32 },
    /// The components are in these modes from now on, and the others stay as they are.
    At(List<Pair>),
    /// The target state for the formula is to be found.
    Want(Formula),
}
