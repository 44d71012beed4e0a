//! Models of concurrent components: modes, variables, rules, moves and failures.

ghost use Rattle.std.specs.Prelude.{◌≡◌, ◌↔◌, ℕ, [], ◌∷◌, ◌++◌, ◌-◌, ◌<◌, false, length, Contains, IfSome, IsNone, OnOk, OnErr, IsTrue};
ghost use Rattle.cca_base.specs.Model.{WellFormed, IsVersion, IsNext, IsMended, IsInChain, is_broken, is_used, empty_model, in_second, with_component, with_variable, with_rule, with_command, without_last_command, with_move, with_failure};
ghost use Rattle.cca_base.specs.MoveIndex.{IsMoveOf, IsMoveBy, IsMoveNamed};
ghost use Rattle.cca_base.specs.Relations.{AreExactly};
ghost use Rattle.cca_base.specs.Repairs.{Mending};
ghost use Rattle.cca_base.specs.State.{IsState};

use crate::formula::Formula;
use crate::index::MoveIndex;
use crate::limits::MAX_CHOICES;
use crate::list::List;
use crate::name::Name;
use crate::state::State;
use std::alloc::{AllocError, Global};

/// A part of the plant that stands in one of its modes.
#[derive(Debug, Drop)]
pub struct Component {
    pub name: Name,
    /// The modes' names. A mode's number is its place here, from 0.
    pub modes: List<Name>,
    /// The mode that it starts in.
    pub start: u8,
}

/// A quantity that has one of its values in each world of a state.
#[derive(Debug, Drop)]
pub struct Variable {
    pub name: Name,
    /// The values' names. A value's number is its place here, from 0.
    pub values: List<Name>,
    /// Whether scripts may observe it.
    pub sensed: bool,
}

/// A move of a component from mode to mode by a command, where its guard allows it.
#[derive(Debug, Drop)]
pub struct Move {
    pub component: u16,
    /// The mode that it leaves.
    pub source: u8,
    /// The mode that it leads to.
    pub target: u8,
    /// The number of its command in the model.
    pub command: u16,
    /// Whether it is a marked repair.
    pub repair: bool,
    /// What has to be true of the plant for it to happen.
    pub guard: Formula,
}

/// A change of mode that comes by itself, at a cost.
#[derive(Clone, Copy, Debug, PartialEq, Eq)]
pub struct Failure {
    pub component: u16,
    /// The mode that it leaves.
    pub source: u8,
    /// The mode that it leads to.
    pub target: u8,
    /// How unlikely it is: from 1 to `MAX_COST`, and the costs of several failures add up.
    pub cost: u32,
}

/// A well-formed model of concurrent components.
#[derive(Debug, Drop)]
pub struct Model {
    /// The version of its document, 1 or 2.
    version: u8,
    components: List<Component>,
    variables: List<Variable>,
    rules: List<Formula>,
    commands: List<Name>,
    moves: List<Move>,
    failures: List<Failure>,
    /// The moves of each command and of each component, by their numbers.
    index: MoveIndex,
}

impl std::marker::Model for Model {
    ghost use Rattle.cca_base.specs.PlantModel.{PlantModel, plant_model};

    ghost Value = { PlantModel };

    ghost use Rattle.cca_base.specs.Coded.{model_codes};

    ghost coded = { Prim.hlevel model_codes };

    ghost use Rattle.cca_base.specs.Model.{WellFormed};
    ghost use Rattle.cca_base.specs.MoveIndex.{IsIndex};

    ghost view = { λ m.
        plant_model m.version m.components m.variables m.rules m.commands m.moves m.failures };

    ghost invariant = { λ m. WellFormed
        (plant_model m.version m.components m.variables m.rules m.commands m.moves m.failures)
        × IsIndex m.components m.commands m.moves m.index };
}

impl Model {
    /// The model of a version without any part.
    #[tactic(auto, using(crate::proofs::EmptyModel::empty_well_formed))]
    pub fn empty(alloc: Global, version: u8) -> Model
        requires { IsVersion version }
        ensures { result ≡ empty_model version }
    {
        Model {
            version,
            components: List::new(alloc),
            variables: List::new(alloc),
            rules: List::new(alloc),
            commands: List::new(alloc),
            moves: List::new(alloc),
            failures: List::new(alloc),
            index: MoveIndex::empty(alloc),
        }
    }

    /// The version of its document, 1 or 2.
    pub fn version(&self) -> u8
        ensures value { result ≡ self.now.version }
        ensures well_formed { WellFormed self.now }
    {
        self.version
    }

    /// The same model in the second version.
    #[tactic(auto, using(crate::proofs::EmptyModel::second_well_formed))]
    pub fn to_second(self) -> Model
        ensures { result ≡ in_second self }
    {
        let Model {
            version: _,
            components,
            variables,
            rules,
            commands,
            moves,
            failures,
            index,
        } = self;
        Model {
            version: 2,
            components,
            variables,
            rules,
            commands,
            moves,
            failures,
            index,
        }
    }

    /// The components. A component's number is its place here, from 0.
    pub fn components(&self) -> &List<Component>
        ensures value { result.now ≡ self.now.components }
        ensures well_formed { WellFormed self.now }
    {
        &self.components
    }

    /// The variables. A variable's number is its place here, from 0.
    pub fn variables(&self) -> &List<Variable>
        ensures value { result.now ≡ self.now.variables }
        ensures well_formed { WellFormed self.now }
    {
        &self.variables
    }

    /// The formulas that are true in each world.
    pub fn rules(&self) -> &List<Formula>
        ensures value { result.now ≡ self.now.rules }
        ensures well_formed { WellFormed self.now }
    {
        &self.rules
    }

    /// The commands' names, in the order of their first use.
    /// A command's number is its place here, from 0.
    pub fn commands(&self) -> &List<Name>
        ensures value { result.now ≡ self.now.commands }
        ensures well_formed { WellFormed self.now }
    {
        &self.commands
    }

    /// The moves, repairs among them. A move's number is its place here, from 0.
    pub fn moves(&self) -> &List<Move>
        ensures value { result.now ≡ self.now.moves }
        ensures well_formed { WellFormed self.now }
    {
        &self.moves
    }

    /// The failures.
    pub fn failures(&self) -> &List<Failure>
        ensures value { result.now ≡ self.now.failures }
        ensures well_formed { WellFormed self.now }
    {
        &self.failures
    }

    /// Puts a component behind the others.
    /// The error is out of memory, and the component is gone then.
    pub fn add_component(&mut self, x: Component) -> Result<(), AllocError>
        requires { WellFormed (with_component self.old x) }
        ensures ok { OnOk result (self.new ≡ with_component self.old x) }
        ensures err { OnErr result (self.new ≡ self.old) }
    {
        let modes = x.modes.len();
        self.components.push(x)?;
        match self.index.add_component(modes) {
            Ok(()) => Ok(()),
            Err(e) => {
                self.components.take_back();
                Err(e)
            }
        }
    }

    /// Puts a variable behind the others.
    /// The error is out of memory, and the variable is gone then.
    pub fn add_variable(&mut self, x: Variable) -> Result<(), AllocError>
        requires { WellFormed (with_variable self.old x) }
        ensures ok { OnOk result (self.new ≡ with_variable self.old x) }
        ensures err { OnErr result (self.new ≡ self.old) }
    {
        self.variables.push(x)
    }

    /// Puts a rule behind the others.
    /// The error is out of memory, and the rule is gone then.
    pub fn add_rule(&mut self, x: Formula) -> Result<(), AllocError>
        requires { WellFormed (with_rule self.old x) }
        ensures ok { OnOk result (self.new ≡ with_rule self.old x) }
        ensures err { OnErr result (self.new ≡ self.old) }
    {
        self.rules.push(x)
    }

    /// Puts a command's name behind the others. The error is out of memory.
    pub fn add_command(&mut self, x: Name) -> Result<(), AllocError>
        requires { WellFormed (with_command self.old x) }
        ensures ok { OnOk result (self.new ≡ with_command self.old x) }
        ensures err { OnErr result (self.new ≡ self.old) }
    {
        self.commands.push(x)?;
        match self.index.add_command() {
            Ok(()) => Ok(()),
            Err(e) => {
                self.commands.take_back();
                Err(e)
            }
        }
    }

    /// Removes the last command, which no move has.
    #[tactic(auto, using(crate::proofs::TakenBack::taken_back))]
    pub fn take_back_command(&mut self)
        requires some { 0 < length self.old.commands }
        requires unused { is_used self.old.moves (length self.old.commands - 1) ≡ false }
        ensures { self.new ≡ without_last_command self.old }
    {
        self.commands.take_back();
        self.index.take_back_command();
    }

    /// Puts a move behind the others.
    /// The error is out of memory, and the move is gone then.
    pub fn add_move(&mut self, x: Move) -> Result<(), AllocError>
        requires { WellFormed (with_move self.old x) }
        ensures ok { OnOk result (self.new ≡ with_move self.old x) }
        ensures err { OnErr result (self.new ≡ self.old) }
    {
        let number = self.moves.len();
        self.moves.push(x)?;
        match self.index.add_move(self.moves.get(number), number as u16) {
            Ok(()) => Ok(()),
            Err(e) => {
                self.moves.take_back();
                Err(e)
            }
        }
    }

    /// Puts a failure behind the others. The error is out of memory.
    pub fn add_failure(&mut self, x: Failure) -> Result<(), AllocError>
        requires { WellFormed (with_failure self.old x) }
        ensures ok { OnOk result (self.new ≡ with_failure self.old x) }
        ensures err { OnErr result (self.new ≡ self.old) }
    {
        self.failures.push(x)
    }

    /// Whether a repair leaves the component's mode.
    pub fn broken(&self, c: u16, m: u8) -> bool
        ensures { result ≡ is_broken self.now.moves c m }
    {
        self.next_mode(c, m).is_some()
    }

    /// The mode that the repairs of the component's mode lead to.
    /// None comes exactly where no repair leaves it.
    pub fn next_mode(&self, c: u16, m: u8) -> Option<u8>
        ensures next { IfSome result (IsNext self.now.moves c m) }
        ensures none { IsNone result ↔ (is_broken self.now.moves c m ≡ false) }
    {
        self.index.next_mode(c as usize, m as usize)
    }

    /// The mended mode: the first in the chain of the component's mode that isn't broken.
    /// None comes exactly where the mode itself isn't broken.
    pub fn mended(&self, c: u16, m: u8) -> Option<u8>
        ensures mended { IfSome result (IsMended self.now.moves c m) }
        ensures none { IsNone result ↔ (is_broken self.now.moves c m ≡ false) }
    {
        let _moves = self.moves();
        let mut mode = self.next_mode(c, m)?;
        for taken in 0..MAX_CHOICES {
            match self.next_mode(c, mode) {
                Some(next) => mode = next,
                None => return Some(mode),
            }
        }
        unreachable!()
    }

    /// Whether the other mode stands in the chain of the component's mode.
    pub fn is_in_chain(&self, c: u16, mode: u8, other: u8) -> bool
        ensures { IsTrue result ↔ IsInChain self.now.moves c mode other }
    {
        let _moves = self.moves();
        let mut at = mode;
        for taken in 0..MAX_CHOICES {
            if at == other {
                return true;
            }
            match self.next_mode(c, at) {
                Some(next) => at = next,
                None => return false,
            }
        }
        unreachable!()
    }

    /// Whether the other mode stands in the chain of the mode. Without such a component a mode's chain is that mode alone.
    fn mends(&self, component: usize, mode: u8, other: u8) -> bool
        ensures { IsTrue result ↔ IsInChain self.now.moves component mode other }
    {
        if component >= self.components().len() {
            return mode == other;
        }
        self.is_in_chain(component as u16, mode, other)
    }

    /// Whether each component stands in the second state in a mode of the chain of its mode in the first.
    pub fn is_mending(&self, from: &State, to: &State) -> bool
        ensures { IsTrue result ↔ Mending self.now from.now.modes to.now.modes }
    {
        if to.modes.len() != from.modes.len() {
            return false;
        }
        for component in 0..from.modes.len() {
            let mode = *from.modes.get(component);
            let other = *to.modes.get(component);
            if !self.mends(component, mode, other) {
                return false;
            }
        }
        true
    }

    /// The component that a command moves.
    pub fn component_of(&self, command: u16) -> u16
        requires { IsTrue (is_used self.now.moves command) }
        ensures component { (move : Move) × Contains self.now.moves move
            × (move.command ≡ command) × (move.component ≡ result) }
        ensures well_formed { WellFormed self.now }
    {
        let moves = self.moves();
        let first = self.moves_by(command)[0];
        moves.get(first as usize).component
    }

    /// The numbers of the component's moves, rising.
    pub fn moves_of(&self, c: u16) -> &[u16]
        requires { c < length self.now.components }
        ensures { AreExactly (IsMoveOf self.now.moves c) result.now }
    {
        self.index.moves_of(c as usize)
    }

    /// The numbers of the command's moves, rising.
    pub fn moves_by(&self, command: u16) -> &[u16]
        requires { command < length self.now.commands }
        ensures { AreExactly (IsMoveBy self.now.moves command) result.now }
    {
        self.index.moves_by(command as usize)
    }

    /// The number of the move that the command names in the state. None comes exactly where it names none.
    pub fn named(&self, state: &State, command: u16) -> Option<u16>
        requires { IsState self.now state.now.modes }
        ensures some { IfSome result (IsMoveNamed self.now.moves state.now.modes command) }
        ensures none { IsNone result →
            (i : ℕ) → IsMoveNamed self.now.moves state.now.modes command i → ⊥ }
    {
        if command as usize >= self.commands().len() {
            return None;
        }
        let moves = self.moves();
        for number in self.moves_by(command) {
            let x = moves.get(*number as usize);
            if *state.modes.get(x.component as usize) == x.source {
                return Some(*number);
            }
        }
        None
    }
}
