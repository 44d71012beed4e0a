//! What a part of a formula's text says: a formula with its depth, or the least code.

ghost use Rattle.std.specs.Prelude.{◌≡◌, ◌≤◌, IfOk};
ghost use Rattle.formula_syntax.specs.ReadParts.{deeper, negated, enclosed, linked};

use crate::formula_parser::Connective;
use cca_base::codes::LIMIT;
use cca_base::{Boxed, Formula, MAX_DEPTH};
use std::alloc::{AllocError, Global};

/// What a part of a formula's text says.
#[derive(Drop)]
pub enum ReadPart {
    /// A formula, and the depth of its text.
    Sound { formula: Formula, depth: u8 },
    /// The least code of what is wrong.
    Faulty(u8),
}

/// The formula, one deeper than its parts.
pub fn deeper(formula: Formula, depth: u8) -> ReadPart
    ensures { result ≡ deeper formula depth }
{
    if (depth as usize) < MAX_DEPTH {
        ReadPart::Sound {
            formula,
            depth: depth + 1,
        }
    } else {
        ReadPart::Faulty(LIMIT)
    }
}

/// What `not` and the part say.
pub fn negated(alloc: Global, part: ReadPart) -> Result<ReadPart, AllocError>
    ensures { IfOk result (λ r. r ≡ negated part) }
{
    match part {
        ReadPart::Sound { formula, depth } => {
            let part = Boxed::new(alloc, formula)?;
            Ok(deeper(Formula::Not(part), depth))
        }
        ReadPart::Faulty(code) => Ok(ReadPart::Faulty(code)),
    }
}

/// What the part in parentheses says.
pub fn enclosed(part: ReadPart) -> ReadPart
    ensures { result ≡ enclosed part }
{
    match part {
        ReadPart::Sound { formula, depth } => deeper(formula, depth),
        ReadPart::Faulty(code) => ReadPart::Faulty(code),
    }
}

/// What two parts with `implies` or `iff` between them say.
pub fn linked(
    alloc: Global,
    link: Connective,
    a: ReadPart,
    b: ReadPart,
) -> Result<ReadPart, AllocError>
    ensures { IfOk result (λ r. r ≡ linked link a b) }
{
    match (a, b) {
        (
            ReadPart::Sound {
                formula: f,
                depth: d,
            },
            ReadPart::Sound {
                formula: g,
                depth: e,
            },
        ) => {
            let a = Boxed::new(alloc, f)?;
            let b = Boxed::new(alloc, g)?;
            match link {
                Connective::Implies => Ok(deeper(Formula::Implies(a, b), d.max(e))),
                Connective::Iff => Ok(deeper(Formula::Iff(a, b), d.max(e))),
            }
        }
        (ReadPart::Faulty(c), ReadPart::Faulty(d)) => Ok(ReadPart::Faulty(c.min(d))),
        (
            ReadPart::Faulty(c),
            ReadPart::Sound {
                formula: _,
                depth: _,
            },
        ) => Ok(ReadPart::Faulty(c)),
        (
            ReadPart::Sound {
                formula: _,
                depth: _,
            },
            ReadPart::Faulty(d),
        ) => Ok(ReadPart::Faulty(d)),
    }
}
