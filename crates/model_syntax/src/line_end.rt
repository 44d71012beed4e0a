//! What follows a line of the model.

/// Whether a line of a model goes on or ends it.
#[derive(Clone, Copy, Debug, PartialEq, Eq)]
pub enum LineEnd {
    /// The model may have further lines.
    Going,
    /// The line was `script`, behind which the events stand.
    Script,
}
