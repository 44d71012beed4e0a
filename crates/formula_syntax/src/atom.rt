//! A comparison in a formula's text, while it is read.

ghost use Rattle.std.specs.Prelude.{◌≡◌};
ghost use Rattle.formula_syntax.specs.ReadParts.{among};

use crate::read_part::ReadPart;
use cca_base::codes::{NAME_REPEATED, NAME_UNKNOWN};
use cca_base::{Formula, Subject, ValueSet};

/// A part of a formula about one subject, while its values are read.
#[derive(Clone, Copy)]
pub enum Atom {
    /// Each name so far is declared.
    Known {
        subject: Subject,
        values: ValueSet,
        /// Whether a value came twice.
        repeated: bool,
    },
    /// A name is not declared.
    Unknown,
}

/// What the atom says, whose values were all read.
pub fn among(atom: Atom) -> ReadPart
    ensures { result ≡ among atom }
{
    match atom {
        Atom::Unknown => ReadPart::Faulty(NAME_UNKNOWN),
        Atom::Known {
            subject,
            values,
            repeated,
        } => {
            if repeated {
                ReadPart::Faulty(NAME_REPEATED)
            } else {
                let formula = Formula::Among { subject, values };
                ReadPart::Sound { formula, depth: 1 }
            }
        }
    }
}
