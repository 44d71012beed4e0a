//! The least cubes that have a cube of each of two lists as a part.

ghost use Rattle.std.specs.Prelude.{◌↔◌, ◌⊎◌, ◌≤◌, All, IfOk, IfSome, List, OnOk, length};
ghost use Rattle.cca_base.specs.Prelude.{IsPart, IsRising};
ghost use Rattle.cca_base.specs.declared.cube.Pair.{Pair};
ghost use Rattle.guard_compiler.specs.Cover.{AreApart, IsCovered};
ghost use Rattle.guard_compiler.specs.Conjunctions.{AreWaysOfBoth};
ghost use Rattle.guard_compiler.specs.LeastUnions.{AreLeastUnions};

use crate::cover::keep;
use crate::union::union_of;
use cca_base::{Cube, List};
use std::alloc::{AllocError, Global};

/// Exactly the least cubes that have a cube of each list as a part, in cube order. None, of which nothing is claimed, where
/// there were more than `most` on the way. The error is out of memory.
pub(crate) fn least_unions(
    alloc: Global,
    firsts: &[Cube],
    seconds: &[Cube],
    most: usize,
) -> Result<Option<List<Cube>>, AllocError>
    requires firsts { All IsRising firsts.now }
    requires seconds { All IsRising seconds.now }
    ensures least { IfOk result (λ r. IfSome r (AreLeastUnions firsts.now seconds.now)) }
    ensures conjunction { IfOk result (λ r. IfSome r (AreWaysOfBoth firsts.now seconds.now)) }
    ensures few { IfOk result (λ r. IfSome r (λ cubes. length cubes ≤ most)) }
{
    let mut cubes = Vec::new(alloc);
    for first in firsts {
        keep_unions(alloc, first, seconds, &mut cubes)?;
        if cubes.len() > most {
            return Ok(None);
        }
    }
    Ok(Some(List::of(cubes)))
}

// Adds the unions of the cube with each of the others, and drops what isn't least.
fn keep_unions(
    alloc: Global,
    first: &Cube,
    seconds: &[Cube],
    cubes: &mut Vec<Cube>,
) -> Result<(), AllocError>
    requires first { IsRising first.now }
    requires seconds { All IsRising seconds.now }
    requires cubes { AreApart cubes.old.items }
    ensures apart { OnOk result (AreApart cubes.new.items) }
    ensures covers { OnOk result ((x : List Pair) → IsRising x → IsCovered cubes.new.items x
        ↔ (IsCovered cubes.old.items x ⊎ (IsPart first.now x × IsCovered seconds.now x))) }
{
    for second in seconds {
        if let Some(union) = union_of(alloc, first, second)? {
            keep(cubes, union)?;
        }
    }
    Ok(())
}
