//! Cubes in cube order, of which none is a part of another: subsumption.

ghost use Rattle.std.specs.Prelude.{◌≡◌, ◌↔◌, ◌⊎◌, [], ◌<◌, ◌≤◌, All, List, OnOk, filter, length, not, slice_index_or, take};
ghost use Rattle.std.specs.List.{list_any};
ghost use Rattle.std.specs.Cmp.Lexicographic.{slice_cmp};
ghost use Rattle.cca_base.specs.Prelude.{cube_cmp, pair_cmp, IsBeforeCube, IsPart, IsRising};
ghost use Rattle.cca_base.specs.declared.cube.Pair.{Pair};
ghost use Rattle.guard_compiler.specs.Cover.{AreApart, IsCovered, is_subsequence, without_first};

use cca_base::{Cube, Pair};
use std::alloc::AllocError;
use std::cmp::Ordering;

/// Adds the cube, unless one of the others is a part of it, and drops those that it is a part of.
pub(crate) fn keep(cubes: &mut Vec<Cube>, cube: Cube) -> Result<(), AllocError>
    requires cubes { AreApart cubes.old.items }
    requires cube { IsRising cube }
    ensures apart { OnOk result (AreApart cubes.new.items) }
    ensures covers { OnOk result ((x : List Pair)
        → IsCovered cubes.new.items x ↔ (IsCovered cubes.old.items x ⊎ IsPart cube x)) }
{
    if is_covered(cubes.as_slice(), &cube) {
        return Ok(());
    }
    drop_covered(cubes, &cube);
    let place = place_of(cubes.as_slice(), &cube);
    cubes.insert(place, cube)?;
    Ok(())
}

fn is_covered(cubes: &[Cube], cube: &Cube) -> bool
    ensures { result ≡ list_any (λ part. is_subsequence part cube.now) cubes.now }
{
    cubes.iter().any(|part| is_part(part, cube))
}

fn drop_covered(cubes: &mut Vec<Cube>, cube: &Cube)
    ensures { cubes.new.items
        ≡ filter (λ other. not (is_subsequence cube.now other)) cubes.old.items }
{
    cubes.retain(|other| !is_part(cube, other));
}

// Whether the pairs of the part are some of the cube's, in the same order.
fn is_part(part: &Cube, cube: &Cube) -> bool
    ensures { result ≡ is_subsequence part.now cube.now }
{
    let mut rest = part.as_slice();
    for pair in cube.as_slice() {
        rest = without_first(pair, rest);
    }
    rest.is_empty()
}

fn without_first<'a>(pair: &Pair, rest: &'a [Pair]) -> &'a [Pair]
    ensures { result.now ≡ without_first pair.now rest.now }
{
    match rest {
        [first, others @ ..] if pair.item == first.item && pair.value == first.value => others,
        _ => rest,
    }
}

// The place of the first cube that comes after this one, or how many there are.
fn place_of(cubes: &[Cube], cube: &Cube) -> usize
    ensures within { result ≤ length cubes.now }
    ensures before { All (λ other. IsBeforeCube cube.now other → ⊥) (take result cubes.now) }
    ensures after { result < length cubes.now →
        IsBeforeCube cube.now (slice_index_or cubes.now result []) }
{
    for (place, other) in cubes.iter().enumerate() {
        if order_of(cube, other) == Ordering::Less {
            return place;
        }
    }
    cubes.len()
}

// How the first comes to the second in cube order.
fn order_of(a: &Cube, b: &Cube) -> Ordering
    ensures { result ≡ cube_cmp a.now b.now }
{
    let by_count = a.len().cmp(&b.len());
    if by_count == Ordering::Equal {
        order_of_pairs(a.as_slice(), b.as_slice())
    } else {
        by_count
    }
}

fn order_of_pairs(a: &[Pair], b: &[Pair]) -> Ordering
    requires { length a.now ≡ length b.now }
    ensures { result ≡ slice_cmp pair_cmp a.now b.now }
{
    for i in 0..a.len() {
        let order = order_of_pair(a[i], b[i]);
        if order != Ordering::Equal {
            return order;
        }
    }
    Ordering::Equal
}

fn order_of_pair(p: Pair, q: Pair) -> Ordering
    ensures { result ≡ pair_cmp p q }
{
    let by_item = p.item.cmp(&q.item);
    if by_item == Ordering::Equal {
        p.value.cmp(&q.value)
    } else {
        by_item
    }
}
