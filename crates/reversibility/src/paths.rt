//! What is known of one component's open moves: their numbers, and which modes they lead to, in how many moves.

ghost use Rattle.std.specs.Prelude.{◌≡◌, ◌<◌, ◌≤◌, [], Some, length, slice_get, slice_index_or};
ghost use Rattle.cca_base.specs.declared.limits.TheConstants.{MAX_MOVES};
ghost use Rattle.reversibility.specs.Paths.{ArePaths};
ghost use Rattle.reversibility.specs.ClassParts.{in_row};

use crate::level::write_levels;
use crate::open::write_open_moves;
use bounded_list::{BoundedList, BoundedRows};
use cca_base::{Compiled, MAX_CHOICES, MAX_MOVES, ValueSet};
use std::alloc::{AllocError, Global};
use std::marker::Model;

/// The open moves of a component, and for each number of them and each mode the modes that so many lead to at most, in room that is made
/// once for all components. A contract sees the numbers of the moves, rising, and the sets of modes, from 0 moves on.
#[derive(Debug, Drop)]
pub struct Paths {
    numbers: BoundedList<u16>,
    levels: BoundedRows<ValueSet>,
    /// A level in the making.
    next: BoundedList<ValueSet>,
}

impl Model for Paths {
    ghost use Rattle.cca_base.specs.Prelude.{model_codes};
    ghost use Rattle.reversibility.specs.Paths.{HasRoom, PathParts};

    ghost Value = { PathParts };

    ghost coded = { Prim.hlevel model_codes };

    ghost view = { λ p. record { numbers = p.numbers.items; levels = p.levels.rows } };

    ghost invariant = { λ p. HasRoom p.numbers.room p.levels.room p.levels.most p.next.room };
}

impl Paths {
    /// Room for the paths of any component. The error is out of memory.
    pub fn with_room(alloc: Global) -> Result<Paths, AllocError> {
        Ok(Paths {
            numbers: BoundedList::with_room(alloc, MAX_MOVES)?,
            levels: BoundedRows::with_room(
                alloc,
                (MAX_CHOICES + 1) * MAX_CHOICES,
                MAX_CHOICES + 1,
            )?,
            next: BoundedList::with_room(alloc, MAX_CHOICES)?,
        })
    }

    /// Finds the paths of a component where these are the classes.
    pub fn find(&mut self, compiled: &Compiled, rows: &[ValueSet], component: u16)
        requires within { component < length compiled.now.model.components }
        requires full { length rows.now ≡ length compiled.now.model.components }
        ensures { ArePaths compiled.now.model (in_row rows.now) component self.new }
    {
        write_open_moves(compiled, rows, component, &mut self.numbers);
        let model = compiled.model();
        let modes = model.components().get(component as usize).modes.len();
        write_levels(
            model,
            self.numbers.as_slice(),
            modes,
            &mut self.next,
            &mut self.levels,
        );
    }

    /// The numbers of the open moves, rising.
    pub fn numbers(&self) -> &[u16]
        ensures numbers { result.now ≡ self.now.numbers }
        ensures few { length result.now ≤ MAX_MOVES }
    {
        self.numbers.as_slice()
    }

    /// How many levels there are.
    pub fn height(&self) -> usize
        ensures { result ≡ length self.now.levels }
    {
        self.levels.len()
    }

    /// For each mode the modes that so many moves lead to at most.
    pub fn level(&self, count: usize) -> &[ValueSet]
        requires { count < length self.now.levels }
        ensures value { slice_get self.now.levels count ≡ Some result.now }
        ensures level { result.now ≡ slice_index_or self.now.levels count [] }
    {
        self.levels.get(count)
    }
}
