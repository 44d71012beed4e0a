//! The union of two cubes, where they don't give one component two modes.

ghost use Rattle.std.specs.Prelude.{◌≡◌, ◌++◌, ◌<◌, IfOk, List, MatchOption, OnOk, drop, length};
ghost use Rattle.cca_base.specs.Prelude.{IsRising};
ghost use Rattle.cca_base.specs.declared.cube.Pair.{Pair};
ghost use Rattle.guard_compiler.specs.Cover.{IsLeastOver, IsOver};

use cca_base::{Cube, Pair};
use std::alloc::{AllocError, Global};

/// The least cube over the two, or None where no cube is over both. The error is out of memory.
pub(crate) fn union_of(
    alloc: Global,
    first: &Cube,
    second: &Cube,
) -> Result<Option<Cube>, AllocError>
    requires first { IsRising first.now }
    requires second { IsRising second.now }
    ensures { IfOk result (λ r. MatchOption r
        ((cube : List Pair) → IsOver first.now second.now cube → ⊥)
        (IsLeastOver first.now second.now)) }
{
    let mut union = Cube::new(alloc);
    let mut left = first.as_slice();
    let mut right = second.as_slice();
    while !left.is_empty() && !right.is_empty() {
        let p = left[0];
        let q = right[0];
        if p.item < q.item {
            union.push(p)?;
            left = rest_of(left);
        } else if q.item < p.item {
            union.push(q)?;
            right = rest_of(right);
        } else if p.value == q.value {
            union.push(p)?;
            left = rest_of(left);
            right = rest_of(right);
        } else {
            return Ok(None);
        }
    }
    push_all(&mut union, left)?;
    push_all(&mut union, right)?;
    Ok(Some(union))
}

// The pairs without the first.
fn rest_of(pairs: &[Pair]) -> &[Pair]
    requires { 0 < length pairs.now }
    ensures { result.now ≡ drop 1 pairs.now }
{
    &pairs[1..]
}

// Puts the pairs behind those of the cube.
fn push_all(cube: &mut Cube, pairs: &[Pair]) -> Result<(), AllocError>
    requires { IsRising (cube.old ++ pairs.now) }
    ensures { OnOk result (cube.new ≡ cube.old ++ pairs.now) }
{
    for pair in pairs {
        cube.push(*pair)?;
    }
    Ok(())
}
