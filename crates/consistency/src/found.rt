//! A state with a world of it, split from the values of all subjects.

ghost use Rattle.std.specs.Prelude.{◌≡◌, ◌≤◌, length, take, drop, IfOk};

use cca_base::{List, State, World};
use std::alloc::{AllocError, Global};

/// A state with a world of it.
#[derive(Debug, Drop)]
pub struct Found {
    pub state: State,
    pub world: World,
}

fn list_of(alloc: Global, values: &[u8]) -> Result<List<u8>, AllocError>
    ensures { IfOk result (λ r. r ≡ values.now) }
{
    let mut list = List::new(alloc);
    for value in values {
        list.push(*value)?;
    }
    Ok(list)
}

/// The components' values as modes of a state, and the others as a world.
pub fn split(alloc: Global, components: usize, values: &[u8]) -> Result<Found, AllocError>
    requires { components ≤ length values.now }
    ensures modes { IfOk result (λ f. f.state.modes ≡ take components values.now) }
    ensures values { IfOk result (λ f. f.world.values ≡ drop components values.now) }
{
    let modes = list_of(alloc, &values[..components])?;
    let values = list_of(alloc, &values[components..])?;
    Ok(Found {
        state: State { modes },
        world: World { values },
    })
}
