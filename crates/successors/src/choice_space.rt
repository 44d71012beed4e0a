//! Memory for the choices of a model's ticks, made once for many of them.

ghost use Rattle.std.specs.Prelude.{◌≡◌, ◌<◌, Some, [], IfOk, length, slice_get, slice_index, slice_index_or};
ghost use Rattle.cca_base.specs.Prelude.{mode_counts};
ghost use Rattle.successors.specs.Choices.{AreLeast, IsWritten};
ghost use Rattle.successors.specs.Spaces.{IsChoiceSpace};

use crate::row::{fill_row, no_costs};
use cca_base::{Choice, List, Model as PlantModel};
use std::alloc::{AllocError, Global};
use std::marker::Model;

/// A row of choices for each component. A contract sees the rows, and for how many choices each has room.
#[derive(Drop)]
pub struct ChoiceRows {
    rows: Vec<Vec<Choice>>,
}

impl Model for ChoiceRows {
    ghost use Rattle.std.specs.Prelude.{map, vec_capacity};
    ghost use Rattle.successors.specs.RowsInRooms.{RowsInRooms};

    ghost Value = { RowsInRooms };

    ghost use Rattle.cca_base.specs.Prelude.{model_codes};

    ghost coded = { Prim.hlevel model_codes };

    ghost view = { λ r. record {
      rows = map (λ v. v.items) r.rows.items;
      rooms = map vec_capacity r.rows.items;
    } };
}

/// Memory for choices.
#[derive(Drop)]
pub struct ChoiceSpace {
    pub(crate) rows: ChoiceRows,
    /// The least cost of a failure to each mode of each component.
    pub(crate) costs: Vec<List<Option<u32>>>,
}

impl ChoiceRows {
    /// Empty rows with room for all modes of each component. The error is out of memory.
    fn of(alloc: Global, model: &PlantModel) -> Result<ChoiceRows, AllocError>
        ensures full { IfOk result (λ r. length r.rows ≡ length model.now.components) }
        ensures rooms { IfOk result (λ r. r.rooms ≡ mode_counts model.now) }
    {
        let mut rows = Vec::with_capacity(alloc, model.components().len())?;
        for component in model.components().as_slice() {
            rows.push(Vec::with_capacity(alloc, component.modes.len())?)?;
        }
        Ok(ChoiceRows { rows })
    }

    /// How many rows there are.
    pub fn len(&self) -> usize
        ensures { result ≡ length self.now.rows }
    {
        self.rows.len()
    }

    /// The row of a component.
    pub fn get(&self, component: usize) -> &[Choice]
        requires { component < length self.now.rows }
        ensures value { slice_get self.now.rows component ≡ Some result.now }
        ensures row { result.now ≡ slice_index_or self.now.rows component [] }
    {
        self.rows[component].as_slice()
    }

    /// Writes the row of a component anew.
    pub(crate) fn fill(
        &mut self,
        model: &PlantModel,
        component: u16,
        from: u8,
        nominal: u8,
        costs: &List<Option<u32>>,
    )
        requires rooms { self.old.rooms ≡ mode_counts model.now }
        requires component { component < length model.now.components }
        requires full { length costs.now ≡ slice_index (mode_counts model.now) component }
        requires least { AreLeast model.now.failures component from costs.now }
        ensures written { IsWritten model.now component from nominal self.old.rows self.new.rows }
        ensures rooms { self.new.rooms ≡ self.old.rooms }
    {
        fill_row(
            model,
            component,
            from,
            nominal,
            costs,
            &mut self.rows[component as usize],
        );
    }

    /// The rows, without their room. The error is out of memory.
    pub(crate) fn copy(&self, alloc: Global) -> Result<List<List<Choice>>, AllocError>
        ensures { IfOk result (λ rows. rows ≡ self.now.rows) }
    {
        let mut rows = List::new(alloc);
        for row in self.rows.as_slice() {
            rows.push(List::of(row.as_slice().to_vec(alloc)?))?;
        }
        Ok(rows)
    }
}

impl ChoiceSpace {
    /// Memory for the choices of the model's components. The error is out of memory.
    pub fn of(alloc: Global, model: &PlantModel) -> Result<ChoiceSpace, AllocError>
        ensures { IfOk result (IsChoiceSpace model.now) }
    {
        Ok(ChoiceSpace {
            rows: ChoiceRows::of(alloc, model)?,
            costs: no_costs(alloc, model.components().as_slice())?,
        })
    }

    /// The rows.
    pub fn rows(&self) -> &ChoiceRows
        ensures { result.now ≡ self.now.rows }
    {
        &self.rows
    }
}
