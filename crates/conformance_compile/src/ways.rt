//! The prime implicants of a move's guard: the one, as many as may be, and one more.

ghost use Rattle.std.specs.Prelude.{IsTrue};
ghost use Rattle.cca_base.specs.Prelude.{HasWorlds};

use cca_base::{Cube, Detail, List, Model, Pair, Refusal, Stop};
use conformance_parts::{model_of, pair};
use guard_compiler::ways;
use std::alloc::Global;
use std::test::*;

/// One component that asks for a mode of another, or for one of four modes of each of four others, or for either.
const GUARDS: &str = "titan 1
component a = p, q start p
component b = p, q start p
component c = m0, m1, m2, m3, m4 start m0
component d = m0, m1, m2, m3, m4 start m0
component e = m0, m1, m2, m3, m4 start m0
component f = m0, m1, m2, m3, m4 start m0
move a p -> q by one when b = q
move a p -> q by most when c != m4 and d != m4 and e != m4 and f != m4
move a p -> q by more when c != m4 and d != m4 and e != m4 and f != m4 or b = q";

/// Whether the model has neither variables nor rules, so that each of its states has a world.
#[tactic(auto, using(crate::proofs::PlainWorlds::worlds_without_rules))]
fn is_without_rules(model: &Model) -> bool
    ensures { IsTrue result → HasWorlds model.now }
{
    model.variables().len() == 0 && model.rules().len() == 0
}

/// What is answered for the move of the model of the guards.
fn answer_of(alloc: Global, number: u16) -> Option<Result<List<Cube>, Stop>> {
    let model = model_of(alloc, GUARDS)?;
    if !is_without_rules(&model) || number as usize >= model.moves().len() {
        return None;
    }
    Some(ways(alloc, &model, number))
}

/// Whether there are so many cubes, with these the first and the last.
fn are_cubes(cubes: &[Cube], count: usize, first: &[Pair], last: &[Pair]) -> bool {
    count > 0
        && cubes.len() == count
        && cubes[0].as_slice() == first
        && cubes[count - 1].as_slice() == last
}

/// Whether the move has so many prime implicants, with these the first and the last.
fn has_ways(alloc: Global, number: u16, count: usize, first: &[Pair], last: &[Pair]) -> bool {
    match answer_of(alloc, number) {
        Some(Ok(cubes)) => are_cubes(cubes.as_slice(), count, first, last),
        _ => false,
    }
}

/// The code of the refusal, and the move that it names.
fn code_and_move(refusal: &Refusal) -> Option<(u8, u16)> {
    match refusal.detail {
        Detail::OfMove(number) => Some((refusal.code, number)),
        _ => None,
    }
}

/// The code with which the move is refused, and the move that is named.
fn refused(alloc: Global, number: u16) -> Option<(u8, u16)> {
    match answer_of(alloc, number) {
        Some(Err(Stop::Refused(refusal))) => code_and_move(&refusal),
        _ => None,
    }
}

#[test]
fn a_guard_has_its_ways_or_too_many(rt: HostRuntime) {
    let one = [pair(1, 1)];
    let first = [pair(2, 0), pair(3, 0), pair(4, 0), pair(5, 0)];
    let last = [pair(2, 3), pair(3, 3), pair(4, 3), pair(5, 3)];
    assert!(rt; has_ways(rt.alloc(), 0, 1, &one, &one));
    assert!(rt; has_ways(rt.alloc(), 1, 256, &first, &last));
    assert!(rt; refused(rt.alloc(), 2) == Some((10, 2)));
}
