//! What a line behind the model asks for.

use cca_base::{Event, List};

/// What a line behind the model asks for.
#[derive(Debug, Drop)]
pub enum CheckItem {
    /// An event of the script: it is kept.
    Keeps(Event),
    /// The line `trace`, which ends the script.
    Trace,
    /// A line of the trace, which has these bytes: it is judged.
    Judges(List<u8>),
}
