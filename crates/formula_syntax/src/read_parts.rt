//! Parts of a formula's text with `and` or `or` between them.

ghost use Rattle.std.specs.Prelude.{◌≡◌, IfOk};
ghost use Rattle.formula_syntax.specs.ReadParts.{one, more, junction_of, joined};
ghost use Rattle.formula_syntax.specs.declared.read_part.ReadPart.TheVariants.{Sound, Faulty};

use crate::formula_parser::Junction;
use crate::read_part::{ReadPart, deeper};
use cca_base::{Formula, List};
use std::alloc::{AllocError, Global};

/// What the parts so far say, which have `and` or `or` between them.
#[derive(Drop)]
pub enum ReadParts {
    /// One part, and the depth of its text.
    One { part: Formula, depth: u8 },
    /// Two parts or more, and the depth of the deepest.
    Many { parts: List<Formula>, depth: u8 },
    /// The least code of what is wrong.
    Faulty(u8),
}

/// The part alone.
pub fn one(part: ReadPart) -> ReadParts
    ensures { result ≡ one part }
{
    match part {
        ReadPart::Sound { formula, depth } => ReadParts::One {
            part: formula,
            depth,
        },
        ReadPart::Faulty(code) => ReadParts::Faulty(code),
    }
}

fn with_fault(parts: ReadParts, code: u8) -> ReadParts
    ensures { result ≡ more parts (Faulty code) }
{
    match parts {
        ReadParts::One { part: _, depth: _ } => ReadParts::Faulty(code),
        ReadParts::Many { parts: _, depth: _ } => ReadParts::Faulty(code),
        ReadParts::Faulty(c) => ReadParts::Faulty(c.min(code)),
    }
}

fn with_sound(
    alloc: Global,
    front: ReadParts,
    formula: Formula,
    depth: u8,
) -> Result<ReadParts, AllocError>
    ensures { IfOk result (λ r. r ≡ more front (Sound formula depth)) }
{
    match front {
        ReadParts::One { part, depth: d } => {
            let mut parts = List::new(alloc);
            parts.push(part)?;
            parts.push(formula)?;
            Ok(ReadParts::Many {
                parts,
                depth: d.max(depth),
            })
        }
        ReadParts::Many {
            mut parts,
            depth: d,
        } => {
            parts.push(formula)?;
            Ok(ReadParts::Many {
                parts,
                depth: d.max(depth),
            })
        }
        ReadParts::Faulty(code) => Ok(ReadParts::Faulty(code)),
    }
}

/// The parts with one more.
pub fn more(alloc: Global, front: ReadParts, last: ReadPart) -> Result<ReadParts, AllocError>
    ensures { IfOk result (λ r. r ≡ more front last) }
{
    match last {
        ReadPart::Sound { formula, depth } => with_sound(alloc, front, formula, depth),
        ReadPart::Faulty(code) => Ok(with_fault(front, code)),
    }
}

/// The formula that the parts make with this word between them.
fn formula_of(junction: Junction, parts: List<Formula>) -> Formula
    ensures { result ≡ junction_of junction parts }
{
    match junction {
        Junction::And => Formula::All(parts),
        Junction::Or => Formula::Any(parts),
    }
}

/// What the parts say with this word between them.
pub fn joined(junction: Junction, parts: ReadParts) -> ReadPart
    ensures { result ≡ joined junction parts }
{
    match parts {
        ReadParts::One { part, depth } => ReadPart::Sound {
            formula: part,
            depth,
        },
        ReadParts::Many { parts, depth } => deeper(formula_of(junction, parts), depth),
        ReadParts::Faulty(code) => ReadPart::Faulty(code),
    }
}
