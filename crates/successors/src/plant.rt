//! The plant as the executive imagines it: it starts in the start modes, makes the nominal move of each command, and
//! takes the mode of each fault.

ghost use Rattle.std.specs.Prelude.{◌≡◌, ◌<◌, IfOk, Some, length, slice_set};
ghost use Rattle.cca_base.specs.Prelude.{start_modes, HasMode, IsState, Nominal, PlantModel};

use crate::sent::obey;
use cca_base::{Compiled, List, Pair, State};
use std::alloc::{AllocError, Global};
use std::marker::Model;

/// The modes in which the components stand. A contract sees their list.
#[derive(Debug, Drop)]
pub struct Plant {
    state: State,
}

impl Model for Plant {
    ghost use Rattle.std.specs.Prelude.{List, ℕ};
    ghost use Rattle.std.specs.Coded.{codes};

    ghost Value = { List ℕ };

    ghost coded = { Prim.hlevel codes };

    ghost view = { λ p. p.state.modes };
}

impl Plant {
    /// A plant in the start modes. The error is out of memory.
    pub fn open(alloc: Global, compiled: &Compiled) -> Result<Plant, AllocError>
        ensures starts { IfOk result (λ p. p ≡ start_modes compiled.now.model) }
        ensures fits { IfOk result (IsState compiled.now.model) }
    {
        let mut modes = List::new(alloc);
        for component in compiled.model().components().as_slice() {
            modes.push(component.start)?;
        }
        Ok(Plant {
            state: State { modes },
        })
    }

    /// Makes the nominal move of the command.
    pub fn command(&mut self, compiled: &Compiled, command: u16)
        requires { IsState compiled.now.model self.old }
        ensures moves { Nominal compiled.now.model self.old (Some command) self.new }
        ensures fits { IsState compiled.now.model self.new }
    {
        obey(compiled, &mut self.state, Some(command));
    }

    /// Puts one component in one mode. A pair of a model that the plant fits leaves it fitting.
    pub fn fault(&mut self, pair: Pair)
        requires { pair.item < length self.old }
        ensures sets { self.new ≡ slice_set self.old pair.item pair.value }
        ensures fits { (m : PlantModel) → IsState m self.old → HasMode m pair.item pair.value →
            IsState m self.new }
    {
        self.state.modes.set(pair.item as usize, pair.value);
    }

    /// Goes to the start modes.
    pub fn reset(&mut self, compiled: &Compiled)
        requires { IsState compiled.now.model self.old }
        ensures starts { self.new ≡ start_modes compiled.now.model }
        ensures fits { IsState compiled.now.model self.new }
    {
        let components = compiled.model().components();
        for at in 0..components.len() {
            self.state.modes.set(at, components.get(at).start);
        }
    }

    /// The modes in which the components stand.
    pub fn state(&self) -> &State
        ensures { result.now.modes ≡ self.now }
    {
        &self.state
    }
}
