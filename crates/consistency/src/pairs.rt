//! The pairs of a state, and cubes put one behind the other.

ghost use Rattle.std.specs.Prelude.{◌≡◌, ◌++◌, ◌≤◌, length, take, IfOk};
ghost use Rattle.cca_base.specs.declared.limits.TheConstants.{MAX_COMPONENTS};
ghost use Rattle.cca_base.specs.Prelude.{pairs_of, IsCube, IsState};

use cca_base::{Cube, Model, Pair, State};
use std::alloc::{AllocError, Global};

/// Each component with its mode in the state.
pub fn all_pairs(alloc: Global, model: &Model, state: &State) -> Result<Cube, AllocError>
    requires { IsState model.now state.now.modes }
    ensures { IfOk result (λ c. c ≡ pairs_of state.now.modes) }
{
    let mut pairs = Cube::new(alloc);
    for item in 0..model.components().len() as u16 {
        let value = *state.modes.get(item as usize);
        pairs.push(Pair { item, value })?;
    }
    Ok(pairs)
}

/// The cube with these pairs behind its own.
pub fn joined(alloc: Global, front: &Cube, behind: &[Pair]) -> Result<Cube, AllocError>
    requires { IsCube (front.now ++ behind.now) }
    ensures { IfOk result (λ c. c ≡ front.now ++ behind.now) }
{
    let mut both = front.copy(alloc)?;
    for pair in behind {
        both.push(*pair)?;
    }
    Ok(both)
}

/// Writes each component with its mode, as the first pairs.
pub fn put_pairs(modes: &[u8], pairs: &mut [Pair])
    requires few { length modes.now ≤ MAX_COMPONENTS }
    requires room { length modes.now ≤ length pairs.old }
    ensures pairs { take (length modes.now) pairs.new ≡ pairs_of modes.now }
    ensures long { length pairs.new ≡ length pairs.old }
{
    for item in 0..modes.len() {
        pairs[item] = Pair {
            item: item as u16,
            value: modes[item],
        };
    }
}
