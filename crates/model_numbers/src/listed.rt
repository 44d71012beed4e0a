//! The names of a kind, where they stand in a model.

ghost use Rattle.std.specs.Prelude.{◌≡◌, length, slice_get};
ghost use Rattle.std.specs.Option.{option_map};
ghost use Rattle.model_numbers.specs.KindNames.{names_of_kind};
ghost use Rattle.model_numbers.specs.Listed.{listed};

use crate::kind::Kind;
use cca_base::{Component, Model, Name, Variable};

/// Names of one kind.
#[derive(Clone, Copy)]
pub enum Listed<'a> {
    Components(&'a [Component]),
    Variables(&'a [Variable]),
    Names(&'a [Name]),
}

impl<'a> Listed<'a> {
    /// The names of a kind. None comes exactly where there is no such list.
    pub fn of_kind(model: &'a Model, kind: Kind, of: usize) -> Option<Listed<'a>>
        ensures { option_map listed result ≡ names_of_kind model.now kind of }
    {
        match kind {
            Kind::Mode => {
                let component = model.components().as_slice().get(of)?;
                Some(Listed::Names(component.modes.as_slice()))
            }
            Kind::Value => {
                let variable = model.variables().as_slice().get(of)?;
                Some(Listed::Names(variable.values.as_slice()))
            }
            Kind::Component if of == 0 => {
                Some(Listed::Components(model.components().as_slice()))
            }
            Kind::Variable if of == 0 => Some(Listed::Variables(model.variables().as_slice())),
            Kind::Command if of == 0 => Some(Listed::Names(model.commands().as_slice())),
            _ => None,
        }
    }

    /// How many they are.
    pub fn len(self) -> usize
        ensures { result ≡ length (listed self.entry) }
    {
        match self {
            Listed::Components(components) => components.len(),
            Listed::Variables(variables) => variables.len(),
            Listed::Names(names) => names.len(),
        }
    }

    /// The bytes of the name at a place.
    pub fn get(self, place: usize) -> Option<&'a [u8]>
        ensures { option_map (λ name. name.now) result ≡ slice_get (listed self.entry) place }
    {
        match self {
            Listed::Components(components) => Some(components.get(place)?.name.bytes()),
            Listed::Variables(variables) => Some(variables.get(place)?.name.bytes()),
            Listed::Names(names) => Some(names.get(place)?.bytes()),
        }
    }
}
