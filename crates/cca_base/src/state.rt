//! States, worlds, goals and observations.

ghost use Rattle.std.specs.Prelude.{◌≡◌, IfOk};

use crate::cube::Pair;
use crate::list::List;
use std::alloc::{AllocError, Global};

/// A mode for each component.
#[derive(Debug, Drop)]
pub struct State {
    /// Its mode's number, for each component in the model's order.
    pub modes: List<u8>,
}

impl State {
    /// A state of the same modes. The error is out of memory.
    pub fn copy(&self, alloc: Global) -> Result<State, AllocError>
        ensures { IfOk result (λ s. s ≡ self.now) }
    {
        let modes = self.modes.copy(alloc)?;
        Ok(State { modes })
    }
}

/// A value for each variable.
#[derive(Debug, Drop)]
pub struct World {
    /// Its value's number, for each variable in the model's order.
    pub values: List<u8>,
}

/// Variables with the values that were observed, rising by the variables' numbers.
#[derive(Debug, Drop)]
pub struct Seen {
    pub pairs: List<Pair>,
}

/// Components with the modes that are wanted. The executive keeps them with effects before their causes.
#[derive(Debug, Drop)]
pub struct Goal {
    pub pairs: List<Pair>,
}
