//! A model whose names are looked up, by a map of them where there is one.

ghost use Rattle.std.specs.Prelude.{◌≡◌, ◌<◌, length, position, IfSome};
ghost use Rattle.std.specs.Str.{bytes_eq};
ghost use Rattle.formula_syntax.specs.Lookups.{subject_of, NamesFit};

use cca_base::{Component, MAX_NAME, Model, Name, Subject, Variable};
use indexmap::IndexMap;

/// A model, and a map of exactly its names where there is one.
#[derive(Drop)]
pub struct NamedModel<'a> {
    model: &'a Model,
    names: Option<&'a IndexMap<Name, Subject>>,
}

impl<'a> std::marker::Model for NamedModel<'a> {
    ghost use Rattle.std.specs.Prelude.{IfSome};
    ghost use Rattle.cca_base.specs.Prelude.{PlantModel};
    ghost use Rattle.formula_syntax.specs.Lookups.{NamesFit};
    ghost use Rattle.cca_base.specs.contracts.model.Model as plant;

    ghost Value = { PlantModel };

    ghost coded = { plant.the_row.coded };

    ghost view = { λ n. n.model.now };

    ghost invariant = { λ n. IfSome n.names (λ names. NamesFit names.now n.model.now) };
}

impl<'a> NamedModel<'a> {
    /// The model, whose names are found by a walk over it.
    pub fn of_model(model: &'a Model) -> NamedModel<'a>
        ensures { result ≡ model.now }
    {
        NamedModel { model, names: None }
    }

    /// The model with a map of its names.
    pub fn new(model: &'a Model, names: &'a IndexMap<Name, Subject>) -> NamedModel<'a>
        requires fit { NamesFit names.now model.now }
        ensures { result ≡ model.now }
    {
        NamedModel {
            model,
            names: Some(names),
        }
    }

    /// The model itself.
    pub fn model(&self) -> &'a Model
        ensures { result.now ≡ self.now }
    {
        self.model
    }

    /// What the name stands for in the model.
    pub fn subject_of(&self, text: &[u8]) -> Option<Subject>
        ensures { result ≡ subject_of self.now text.now }
    {
        match self.names {
            Some(names) => subject_in(self.model, names, text),
            None => find_subject(self.model, text),
        }
    }
}

/// What the name stands for, found in the map of the model's names.
fn subject_in(model: &Model, names: &IndexMap<Name, Subject>, text: &[u8]) -> Option<Subject>
    requires fit { NamesFit names.now model.now }
    ensures { result ≡ subject_of model.now text.now }
{
    if text.len() > MAX_NAME {
        let _well_formed = model.components();
        None
    } else {
        names.get(&Name::of(text)).copied()
    }
}

/// What the name stands for, found in the model itself.
fn find_subject(model: &Model, text: &[u8]) -> Option<Subject>
    ensures { result ≡ subject_of model.now text.now }
{
    match component_of(model.components().as_slice(), text) {
        Some(c) => Some(Subject::Component(c as u16)),
        None => match variable_of(model.variables().as_slice(), text) {
            Some(v) => Some(Subject::Variable(v as u16)),
            None => None,
        },
    }
}

/// The number of the component of this name.
fn component_of(components: &[Component], text: &[u8]) -> Option<usize>
    ensures place { result ≡ position (λ c. bytes_eq c.name text.now) components.now }
    ensures within { IfSome result (λ k. k < length components.now) }
{
    components.iter().position(|x| x.name.bytes() == text)
}

/// The number of the variable of this name.
fn variable_of(variables: &[Variable], text: &[u8]) -> Option<usize>
    ensures place { result ≡ position (λ v. bytes_eq v.name text.now) variables.now }
    ensures within { IfSome result (λ k. k < length variables.now) }
{
    variables.iter().position(|x| x.name.bytes() == text)
}
