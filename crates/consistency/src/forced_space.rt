//! Memory in which the values are sought that all worlds of a state have, made once for many states.

ghost use Rattle.std.specs.Prelude.{IfOk};
ghost use Rattle.consistency.specs.Spaces.{IsForcedSpace};

use crate::world_space::WorldSpace;
use crate::worlds::Worlds;
use bounded_list::BoundedList;
use cca_base::{Model, Pair};
use std::alloc::{AllocError, Global};

/// Memory for the values that all worlds of a state have.
#[derive(Drop)]
pub(crate) struct ForcedSpace {
    pub(crate) worlds: WorldSpace,
    /// Room for the pairs of a state.
    pub(crate) modes: Vec<Pair>,
    /// The values of the first world that was found.
    pub(crate) values: Vec<u8>,
    /// The variables that have one value in all worlds, each with that value.
    pub(crate) pairs: BoundedList<Pair>,
}

impl Worlds {
    /// Memory for the values that all worlds of a state have. The error is out of memory.
    pub(crate) fn forced_space(
        &self,
        alloc: Global,
        model: &Model,
    ) -> Result<ForcedSpace, AllocError>
        ensures { IfOk result (IsForcedSpace model.now self.now) }
    {
        Ok(ForcedSpace {
            worlds: self.small_space(alloc)?,
            modes: Vec::from_elem(alloc, Pair { item: 0, value: 0 }, model.components().len())?,
            values: Vec::from_elem(alloc, 0, self.problem.clauses().sizes.len())?,
            pairs: BoundedList::with_room(alloc, model.variables().len())?,
        })
    }
}
