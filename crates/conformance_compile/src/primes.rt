//! Prime implicants of clauses, all of them or more than may be.

use crate::clauses::{Literals, clauses, one};
use cca_base::{Cube, MAX_WAYS, Pair, ValueSet};
use conformance_parts::pair;
use prime_implicants::{Primes, primes};
use std::alloc::Global;
use std::test::*;

/// The cubes that the clauses over one subject of three values block minimally, if they are no more.
fn primes_of(alloc: Global, rows: Literals<'_>, most: u32) -> Option<Primes> {
    let given = clauses(alloc, &[3], rows)?;
    primes(alloc, &given, most).ok()
}

/// Whether the cubes are these.
fn are_cubes(cubes: &[Cube], wanted: &[&[Pair]]) -> bool {
    if cubes.len() != wanted.len() {
        return false;
    }
    for i in 0..cubes.len() {
        if cubes[i].as_slice() != wanted[i] {
            return false;
        }
    }
    true
}

/// Whether these are all the cubes, of which there are no more than may be.
fn every_prime_is(alloc: Global, rows: Literals<'_>, wanted: &[&[Pair]]) -> bool {
    match primes_of(alloc, rows, MAX_WAYS as u32) {
        Some(Primes::Every(cubes)) => are_cubes(cubes.as_slice(), wanted),
        _ => false,
    }
}

/// Whether there are more cubes than so many.
fn are_more(alloc: Global, rows: Literals<'_>, most: u32) -> bool {
    match primes_of(alloc, rows, most) {
        Some(Primes::More) => true,
        _ => false,
    }
}

#[test]
fn the_one_cube_or_more_than_none(rt: HostRuntime) {
    let rows: [&[(u16, ValueSet)]; 1] = [&[(0, one(0).union(one(1)))]];
    assert!(rt; every_prime_is(rt.alloc(), &rows, &[&[pair(0, 2)]]));
    assert!(rt; are_more(rt.alloc(), &rows, 0));
    assert!(rt; every_prime_is(rt.alloc(), &[], &[]));
}
