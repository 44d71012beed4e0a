//! A model that grows line by line, with maps of its names and of its commands.

ghost use Rattle.std.specs.Prelude.{◌≡◌, ◌<◌, None, Some, map, nat_eq, OnOk, OnErr};
ghost use Rattle.std.specs.Cmp.Lexicographic.{pointwise};
ghost use Rattle.indexmap.specs.IndexMap.{spare, Updates};
ghost use Rattle.cca_base.specs.Prelude.{empty_model, in_second, with_command, with_component, with_failure, with_move, with_rule, with_variable, IsComplete, WellFormed};
ghost use Rattle.formula_syntax.specs.Lookups.{NamesFit, place_of};
ghost use Rattle.model_syntax.specs.Items as items;
ghost use Rattle.model_syntax.specs.Lines.{HasBareNames};
ghost use Rattle.model_syntax.specs.Codes.{command_number, component_code, new_component, variable_code, new_variable, sound_move_code, with_named};
ghost use Rattle.model_syntax.specs.Reader.{IsDeclared};

use crate::words::{names_of, start_mode};
use cca_base::{Component, Failure, Formula, MAX_NAME, Model, Move, Name, Subject, Variable};
use formula_syntax::NamedModel;
use indexmap::IndexMap;
use std::alloc::{AllocError, Global};
use std::mem;

/// A model in which each command is used, with the number of each name and each command.
#[derive(Drop)]
pub struct IndexedModel {
    model: Model,
    names: IndexMap<Name, Subject>,
    numbers: IndexMap<Name, u16>,
}

impl std::marker::Model for IndexedModel {
    ghost use Rattle.cca_base.specs.Prelude.{PlantModel};
    ghost use Rattle.model_syntax.specs.Reader.{IsIndexed};
    ghost use Rattle.cca_base.specs.contracts.model.Model as plant;

    ghost Value = { PlantModel };

    ghost coded = { plant.the_row.coded };

    ghost view = { λ x. x.model };

    ghost invariant = { λ x. IsIndexed x.model x.names x.numbers };
}

/// Puts a name that has room into the map.
fn insert_new<V: Drop>(map: &mut IndexMap<Name, V>, name: Name, value: V)
    requires { 0 < spare map.old }
    ensures { Updates (pointwise nat_eq) map.old map.new name (Some value) }
{
    let _old = map.insert(name, value).unwrap();
}

impl IndexedModel {
    /// The model without any part.
    pub fn empty(alloc: Global) -> IndexedModel
        ensures { result ≡ empty_model 1 }
    {
        IndexedModel {
            model: Model::empty(alloc, 1),
            names: IndexMap::new(alloc),
            numbers: IndexMap::new(alloc),
        }
    }

    /// The model itself.
    pub fn model(&self) -> &Model
        ensures { result.now ≡ self.now }
    {
        &self.model
    }

    /// The model with its names.
    pub fn named(&self) -> NamedModel<'_>
        ensures { result ≡ self.now }
    {
        NamedModel::new(&self.model, &self.names)
    }

    /// The model, and the map of its names.
    pub fn finish(self) -> (Model, IndexMap<Name, Subject>)
        ensures model { result.0 ≡ self }
        ensures complete { IsComplete result.0 }
        ensures fit { NamesFit result.1 result.0 }
    {
        let IndexedModel {
            model,
            names,
            numbers: _,
        } = self;
        (model, names)
    }

    /// Makes it the same model in the second version.
    pub fn set_second(&mut self, alloc: Global)
        ensures { self.new ≡ in_second self.old }
    {
        let first = mem::replace(&mut self.model, Model::empty(alloc, 1));
        self.model = first.to_second();
    }

    /// The number of a command that the model has.
    #[tactic(auto, using(formula_syntax::proofs::UnknownCommands::long_is_none))]
    fn number_of(&self, command: &[u8]) -> Option<u16>
        ensures { result ≡ place_of self.now.commands command.now }
    {
        let _commands = self.model.commands();
        if command.len() > MAX_NAME {
            None
        } else {
            self.numbers.get(&Name::of(command)).copied()
        }
    }

    /// The number of a command: that of its first use, or the next one.
    pub fn command_number(&self, command: &[u8]) -> u16
        ensures { result ≡ command_number self.now command.now }
    {
        let _moves = self.model.moves();
        let count = self.model.commands().len() as u16;
        self.number_of(command).unwrap_or(count)
    }

    /// Adds the component of a line that has no code.
    pub fn add_component(
        &mut self,
        alloc: Global,
        name: &[u8],
        modes: &[&[u8]],
        start: &[u8],
    ) -> Result<(), AllocError>
        requires bare { HasBareNames
            (items.Component name.now (map (λ w. w.now) modes.now) start.now) }
        requires code { component_code self.old name.now (map (λ w. w.now) modes.now) start.now
            ≡ None }
        ensures ok { OnOk result (self.new ≡ with_component self.old
            (new_component name.now (map (λ w. w.now) modes.now) start.now)) }
        ensures err { OnErr result (self.new ≡ self.old) }
    {
        let number = self.model.components().len() as u16;
        let start = start_mode(modes, start).unwrap();
        let modes = names_of(alloc, modes)?;
        let name = Name::of(name);
        self.names.reserve(1)?;
        self.model.add_component(Component {
            name,
            modes,
            start: start as u8,
        })?;
        insert_new(&mut self.names, name, Subject::Component(number));
        Ok(())
    }

    /// Adds the variable of a line that has no code.
    pub fn add_variable(
        &mut self,
        alloc: Global,
        name: &[u8],
        values: &[&[u8]],
        sensed: bool,
    ) -> Result<(), AllocError>
        requires bare { HasBareNames
            (items.Variable name.now (map (λ w. w.now) values.now) sensed) }
        requires code { variable_code self.old name.now (map (λ w. w.now) values.now) ≡ None }
        ensures ok { OnOk result (self.new ≡ with_variable self.old
            (new_variable name.now (map (λ w. w.now) values.now) sensed)) }
        ensures err { OnErr result (self.new ≡ self.old) }
    {
        let number = self.model.variables().len() as u16;
        let values = names_of(alloc, values)?;
        let name = Name::of(name);
        self.names.reserve(1)?;
        self.model.add_variable(Variable {
            name,
            values,
            sensed,
        })?;
        insert_new(&mut self.names, name, Subject::Variable(number));
        Ok(())
    }

    /// Adds a rule.
    pub fn add_rule(&mut self, rule: Formula) -> Result<(), AllocError>
        requires { WellFormed (with_rule self.old rule) }
        ensures ok { OnOk result (self.new ≡ with_rule self.old rule) }
        ensures err { OnErr result (self.new ≡ self.old) }
    {
        self.model.add_rule(rule)
    }

    /// Adds a failure.
    pub fn add_failure(&mut self, failure: Failure) -> Result<(), AllocError>
        requires { WellFormed (with_failure self.old failure) }
        ensures ok { OnOk result (self.new ≡ with_failure self.old failure) }
        ensures err { OnErr result (self.new ≡ self.old) }
    {
        self.model.add_failure(failure)
    }

    /// Adds a move that has no code, and its new command.
    fn add_with_command(&mut self, x: Move, command: &[u8]) -> Result<(), AllocError>
        requires well_formed { WellFormed self.old }
        requires declared { IsDeclared self.old x command.now }
        requires code { sound_move_code self.old x command.now ≡ None }
        requires free { place_of self.old.commands command.now ≡ None }
        ensures ok { OnOk result (self.new ≡ with_move (with_command self.old command.now) x) }
        ensures err { OnErr result (self.new ≡ self.old) }
    {
        let number = x.command;
        let name = Name::of(command);
        self.numbers.reserve(1)?;
        self.model.add_command(name)?;
        match self.model.add_move(x) {
            Ok(()) => {
                insert_new(&mut self.numbers, name, number);
                Ok(())
            }
            Err(e) => {
                self.model.take_back_command();
                Err(e)
            }
        }
    }

    /// Adds a move that has no code, and its command where that is new.
    pub fn add_move(&mut self, x: Move, command: &[u8]) -> Result<(), AllocError>
        requires well_formed { WellFormed self.old }
        requires declared { IsDeclared self.old x command.now }
        requires code { sound_move_code self.old x command.now ≡ None }
        ensures ok { OnOk result (self.new ≡ with_move (with_named self.old command.now) x) }
        ensures err { OnErr result (self.new ≡ self.old) }
    {
        match self.number_of(command) {
            Some(_) => self.model.add_move(x),
            None => self.add_with_command(x, command),
        }
    }
}
