//! Memory for questions whether walks clash with what was seen, made once for all windows of a model.

ghost use Rattle.std.specs.Prelude.{◌≡◌, IfOk, length};
ghost use Rattle.trajectory_estimator.specs.Spaces.{IsWindowSpace};

use bounded_list::BoundedList;
use cca_base::{Model, Pair};
use consistency::{WorldSpace, Worlds};
use std::alloc::{AllocError, Global};

/// Memory for worlds, and for pairs of components and modes.
#[derive(Drop)]
pub(crate) struct WindowSpace {
    pub(crate) worlds: WorldSpace,
    /// The pairs that are asked.
    pub(crate) asked: BoundedList<Pair>,
    /// Those of them that are to blame.
    pub(crate) blamed: BoundedList<Pair>,
}

impl WindowSpace {
    /// Memory for windows of the model, whose worlds these are. The error is out of memory.
    pub(crate) fn of(
        alloc: Global,
        model: &Model,
        worlds: &Worlds,
    ) -> Result<WindowSpace, AllocError>
        ensures { IfOk result (IsWindowSpace worlds.now (length model.now.components)) }
    {
        let components = model.components().len();
        Ok(WindowSpace {
            worlds: worlds.space(alloc)?,
            asked: BoundedList::with_room(alloc, components)?,
            blamed: BoundedList::with_room(alloc, components)?,
        })
    }
}
