//! Memory in which a model's worlds are sought, made once for many questions.

ghost use Rattle.std.specs.Prelude.{IfOk};
ghost use Rattle.consistency.specs.Spaces.{IsWorldSpace};

use cca_base::{Pair, ValueSet};
use std::alloc::{AllocError, Global};
use world_search::{Problem, Space};

/// Memory for questions of worlds. It serves the clauses alone that it was made for.
#[derive(Drop)]
pub struct WorldSpace {
    pub(crate) search: Space,
    /// What each subject may be, while that is put together.
    pub(crate) sets: Vec<ValueSet>,
    /// Room for the pairs that are asked for.
    pub(crate) pairs: Vec<Pair>,
}

impl WorldSpace {
    /// Memory for questions of the problem's worlds, with room for at most so many learned clauses. The error is out of memory.
    pub(crate) fn of(
        alloc: Global,
        problem: &Problem,
        learned: usize,
    ) -> Result<WorldSpace, AllocError>
        ensures { IfOk result (IsWorldSpace problem.now) }
    {
        let subjects = problem.clauses().sizes.len();
        Ok(WorldSpace {
            search: problem.space(alloc, learned)?,
            sets: Vec::from_elem(alloc, ValueSet::empty(), subjects)?,
            pairs: Vec::from_elem(alloc, Pair { item: 0, value: 0 }, subjects)?,
        })
    }
}
