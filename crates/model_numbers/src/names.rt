//! Names as numbers and back.

ghost use Rattle.std.specs.Prelude.{◌≡◌};
ghost use Rattle.std.specs.Option.{option_map};
ghost use Rattle.formula_syntax.specs.Lookups.{as_component, as_variable, subject_of};
ghost use Rattle.model_numbers.specs.KindNames.{count_of, name_of_number, number_of_name};

use crate::kind::Kind;
use crate::listed::Listed;
use cca_base::{Model, Subject};
use formula_syntax::{NamedModel, place_of};

/// How many names of the kind there are. None comes exactly where there is no such list of names.
pub fn count(model: &Model, kind: Kind, of: usize) -> Option<usize>
    ensures { result ≡ count_of model.now kind of }
{
    Some(Listed::of_kind(model, kind, of)?.len())
}

/// The bytes of the name of a number. None comes exactly where there is no such number.
pub fn name(model: &Model, kind: Kind, of: usize, number: usize) -> Option<&[u8]>
    ensures { option_map (λ name. name.now) result ≡ name_of_number model.now kind of number }
{
    Listed::of_kind(model, kind, of)?.get(number)
}

/// The number of a component by its name.
fn component(model: &NamedModel, name: &[u8]) -> Option<usize>
    ensures { result ≡ as_component (subject_of model.now name.now) }
{
    match model.subject_of(name)? {
        Subject::Component(c) => Some(c as usize),
        Subject::Variable(_) => None,
    }
}

/// The number of a variable by its name.
fn variable(model: &NamedModel, name: &[u8]) -> Option<usize>
    ensures { result ≡ as_variable (subject_of model.now name.now) }
{
    match model.subject_of(name)? {
        Subject::Variable(v) => Some(v as usize),
        Subject::Component(_) => None,
    }
}

/// The number of a name. None comes exactly where there is no such name. It takes no memory.
pub fn number(model: &NamedModel, kind: Kind, of: usize, name: &[u8]) -> Option<usize>
    ensures { result ≡ number_of_name model.now kind of name.now }
{
    let plant = model.model();
    let components = plant.components().as_slice();
    let variables = plant.variables().as_slice();
    match kind {
        Kind::Mode => place_of(components.get(of)?.modes.as_slice(), name),
        Kind::Value => place_of(variables.get(of)?.values.as_slice(), name),
        Kind::Component if of == 0 => component(model, name),
        Kind::Variable if of == 0 => variable(model, name),
        Kind::Command if of == 0 => place_of(plant.commands().as_slice(), name),
        _ => None,
    }
}
