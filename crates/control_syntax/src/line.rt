//! What a line of a control program says.

use cca_base::{Formula, List, Pair};

/// What a line of a control program says.
#[derive(Debug, Drop)]
pub enum Line {
    /// The program begins.
    Program,
    /// The pairs are asked for.
    Reach(List<Pair>),
    /// The formula is waited for.
    Await(Formula),
    /// A block begins, whose parts come one after the other.
    Seq,
    /// A block begins, whose parts go on side by side.
    Both,
    /// A block begins, of which the first or the second half is chosen.
    Choose(Formula),
    /// The second half of a `choose` begins.
    Otherwise,
    /// A block begins, which goes round so many times.
    Repeat(u32),
    /// The innermost block ends.
    Done,
    /// The program ends.
    End,
}
