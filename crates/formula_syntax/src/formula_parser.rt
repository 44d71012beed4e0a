//! The state of the parser of formulas.

use crate::atom::Atom;
use crate::read_part::ReadPart;
use crate::read_parts::ReadParts;
use cca_base::List;

/// The word between two disjunctions.
#[derive(Clone, Copy)]
pub enum Connective {
    Implies,
    Iff,
}

/// The word between the parts of a conjunction or a disjunction.
#[derive(Clone, Copy)]
pub enum Junction {
    And,
    Or,
}

/// A disjunction before `implies` or `iff`, and that word.
#[derive(Drop)]
pub struct Side {
    pub link: Connective,
    pub reading: ReadPart,
}

/// What was read so far between two parentheses.
#[derive(Drop)]
pub struct Level {
    /// The side before `implies` or `iff`.
    pub left: Option<Side>,
    /// The conjunctions that have an `or` behind them.
    pub any: Option<ReadParts>,
    /// The factors since the last `or`.
    pub all: Option<ReadParts>,
    /// How many words `not` stand before the factor that comes next.
    pub nots: usize,
}

/// What has to come next.
#[derive(Clone, Copy)]
pub enum Expected {
    /// A factor.
    Operand,
    /// A word between factors, or a closing parenthesis.
    Operator,
    /// `=`, `!=` or `in`.
    Named(Atom),
    /// The value behind `=` or `!=`.
    Compared { atom: Atom, differs: bool },
    /// The brace behind `in`.
    Opened(Atom),
    /// A value in braces.
    Listed(Atom),
    /// A comma or the closing brace.
    Followed(Atom),
}

/// A formula's text, as far as it was read.
#[derive(Drop)]
pub struct FormulaParser {
    /// The levels around this one, outermost first.
    pub outer: List<Level>,
    pub level: Level,
    pub place: Expected,
}
