//! What the failures of each component cost, from each of its modes.

ghost use Rattle.std.specs.Prelude.{◌≡◌, ◌<◌, ◌≤◌, [], All, IfOk, length, slice_index_or};
ghost use Rattle.cca_base.specs.Prelude.{IsComponent};
ghost use Rattle.cca_base.specs.declared.limits.TheConstants.{MAX_CHOICES};
ghost use Rattle.trajectory_estimator.specs.Changes.{AreChangesOf, AreNear, row_at};

use cca_base::{Component, List, Model};
use std::alloc::{AllocError, Global};
use successors::least_costs;

/// The least cost of the failures between two modes, where there are some: by the mode that is left, by component, and by the mode
/// that is reached.
#[derive(Debug, Drop)]
pub struct Changes {
    rows: Vec<Vec<List<Option<u32>>>>,
}

impl std::marker::Model for Changes {
    ghost use Rattle.std.specs.Prelude.{List, ℕ, Option, map};
    ghost use Rattle.std.specs.Coded.{codes};

    ghost Value = { List (List (List (Option ℕ))) };

    ghost coded = { Prim.hlevel codes };

    ghost view = { λ c. map (λ r. r.items) c.rows.items };
}

/// The most modes that a component has.
fn most_modes(components: &[Component]) -> usize
    requires { All IsComponent components.now }
    ensures most { All (λ x. length x.modes ≤ result) components.now }
    ensures few { result ≤ MAX_CHOICES }
{
    let mut most = 0;
    for component in components {
        let count = component.modes.len();
        if count > most {
            most = count;
        }
    }
    most
}

/// Each component in this mode, or in its last one where it has fewer. The error is out of memory.
fn modes_near(alloc: Global, components: &[Component], mode: u8) -> Result<List<u8>, AllocError>
    requires { All IsComponent components.now }
    ensures { IfOk result (AreNear components.now mode) }
{
    let mut modes = List::new(alloc);
    for component in components {
        let last = component.modes.len() - 1;
        modes.push(mode.min(last as u8))?;
    }
    Ok(modes)
}

impl Changes {
    /// The costs of a model's failures. The error is out of memory.
    pub fn of(alloc: Global, model: &Model) -> Result<Changes, AllocError>
        ensures { IfOk result (λ c. AreChangesOf model.now c) }
    {
        let components = model.components().as_slice();
        let mut rows = Vec::new(alloc);
        for mode in 0..most_modes(components) {
            let modes = modes_near(alloc, components, mode as u8)?;
            rows.push(least_costs(alloc, model, modes.as_slice())?)?;
        }
        Ok(Changes { rows })
    }

    /// The least costs of the component's failures from the mode, mode by mode.
    pub fn row(&self, component: u16, from: u8) -> &[Option<u32>]
        requires mode { from < length self.now }
        requires component { component < length (slice_index_or self.now from []) }
        ensures { result.now ≡ row_at self.now from component }
    {
        self.rows[from as usize][component as usize].as_slice()
    }
}
