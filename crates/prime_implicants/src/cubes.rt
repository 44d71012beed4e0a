//! Partial values as cubes.

ghost use Rattle.std.specs.Prelude.{◌≡◌, true, IfOk, map};
ghost use Rattle.prime_implicants.specs.Found.{all_keys, cubes_of_keys, is_proper, pairs_of_key};

use crate::found::Found;
use cca_base::{Cube, List, Pair};
use std::alloc::{AllocError, Global};

/// The cubes of the keys, in their order.
pub fn cubes_of(alloc: Global, mut found: Found) -> Result<List<Cube>, AllocError>
    requires { all_keys is_proper found.keys ≡ true }
    ensures { IfOk result (λ cubes. cubes ≡ cubes_of_keys found.keys) }
{
    let mut cubes = List::new(alloc);
    while let Some(key) = found.pop_first() {
        cubes.push(cube_of(alloc, key.as_slice())?)?;
    }
    Ok(cubes)
}

// The cube of a key.
fn cube_of(alloc: Global, key: &[usize]) -> Result<Cube, AllocError>
    requires { is_proper key.now ≡ true }
    ensures { IfOk result (λ cube. cube ≡ pairs_of_key key.now) }
{
    let mut cube = Cube::new(alloc);
    let mut rest = &key[1..];
    while let [item, value, others @ ..] = rest {
        cube.push(Pair {
            item: *item as u16,
            value: *value as u8,
        })?;
        rest = others;
    }
    Ok(cube)
}
