//! Names of components, variables, modes and values looked up.

ghost use Rattle.std.specs.Prelude.{◌≡◌, ◌<◌, length, position, IfSome};
ghost use Rattle.cca_base.specs.declared.limits.TheConstants.{MAX_CHOICES};
ghost use Rattle.formula_syntax.specs.Lookups.{value_of, place_of};
ghost use Rattle.formula_syntax.specs.ReadParts.{named, with_value};

use crate::atom::Atom;
use crate::named_model::NamedModel;
use cca_base::{Model, Name, Subject, ValueSet};

/// The place of a name in a list.
pub fn place_of(names: &[Name], text: &[u8]) -> Option<usize>
    ensures place { result ≡ place_of names.now text.now }
    ensures within { IfSome result (λ k. k < length names.now) }
{
    names.iter().position(|name| name.bytes() == text)
}

/// The number of the subject's mode or value of this name.
pub fn value_of(model: &Model, subject: Subject, text: &[u8]) -> Option<u8>
    ensures number { result ≡ value_of model.now subject text.now }
    ensures small { IfSome result (λ k. k < MAX_CHOICES) }
{
    let place = match subject {
        Subject::Component(c) => {
            let components = model.components().as_slice();
            match components.get(c as usize) {
                Some(component) => place_of(component.modes.as_slice(), text),
                None => None,
            }
        }
        Subject::Variable(v) => {
            let variables = model.variables().as_slice();
            match variables.get(v as usize) {
                Some(variable) => place_of(variable.values.as_slice(), text),
                None => None,
            }
        }
    }?;
    Some(place as u8)
}

/// An atom that begins with this name.
pub fn named(model: &NamedModel, text: &[u8]) -> Atom
    ensures { result ≡ named model.now text.now }
{
    match model.subject_of(text) {
        None => Atom::Unknown,
        Some(subject) => Atom::Known {
            subject,
            values: ValueSet::empty(),
            repeated: false,
        },
    }
}

/// The atom with one value more. A strict reading marks one that came before.
pub fn with_value(model: &Model, strict: bool, atom: Atom, text: &[u8]) -> Atom
    ensures { result ≡ with_value strict model.now atom text.now }
{
    match atom {
        Atom::Unknown => Atom::Unknown,
        Atom::Known {
            subject,
            values,
            repeated,
        } => match value_of(model, subject, text) {
            None => Atom::Unknown,
            Some(k) => Atom::Known {
                subject,
                values: values.with(k),
                repeated: repeated || (strict && values.has(k)),
            },
        },
    }
}
