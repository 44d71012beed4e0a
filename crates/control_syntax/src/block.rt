//! A block of a control program whose lines are being read.

use crate::part::Part;
use cca_base::{Formula, List};

/// Which block it is.
#[derive(Debug, Drop)]
pub enum Kind {
    Seq,
    Both,
    /// Before its `otherwise`.
    Choose(Formula),
    /// Behind its `otherwise`, with the parts before that.
    Otherwise(Formula, List<Part>),
    Repeat(u32),
}

/// An open block, with its parts so far; behind an `otherwise`, those behind it.
#[derive(Debug, Drop)]
pub struct Block {
    pub kind: Kind,
    pub parts: List<Part>,
}
