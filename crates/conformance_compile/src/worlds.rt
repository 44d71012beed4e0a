//! Worlds and counterexamples: the first of each, or none.

ghost use Rattle.std.specs.Prelude.{◌≡◌, IfSome};
ghost use Rattle.cca_base.specs.Prelude.{HasWorld, IsState};

use crate::clauses::all_true;
use crate::formulas::is;
use cca_base::{Model, State, Subject};
use clause_form::{Clauses, clauses_of};
use conformance_parts::{Pairs, VALVE, model_of, modes_of, seen};
use consistency::{Found, Worlds, find_counter, find_world};
use std::alloc::Global;
use std::test::*;

/// The first state and world of these modes, with what is seen; nothing where memory runs out.
fn world_of(
    alloc: Global,
    model: &Model,
    modes: Pairs<'_>,
    observed: Pairs<'_>,
) -> Option<Option<Found>> {
    let modes = modes_of(alloc, model, modes)?;
    let observed = seen(alloc, model, observed)?;
    find_world(alloc, model, &modes, &observed).ok()
}

/// The first state of these modes that has a world.
pub fn first_state(alloc: Global, model: &Model, modes: Pairs<'_>) -> Option<State>
    ensures state { IfSome result (λ s. IsState model.now s.modes) }
    ensures world { IfSome result (λ s. HasWorld model.now s.modes) }
{
    let modes = modes_of(alloc, model, modes)?;
    let nothing = seen(alloc, model, &[])?;
    match find_world(alloc, model, &modes, &nothing) {
        Ok(Some(found)) => Some(found.state),
        _ => None,
    }
}

/// The first state of these modes, with a world of it, in which the subject has another value.
fn counter_of(
    alloc: Global,
    model: &Model,
    modes: Pairs<'_>,
    subject: Subject,
    value: u8,
) -> Option<Option<Found>> {
    let modes = modes_of(alloc, model, modes)?;
    let formula = is(model, subject, value)?;
    find_counter(alloc, model, &modes, &formula).ok()
}

/// Whether the subject has the value in all worlds of all states of these modes; nothing where memory runs out.
fn follows_from(
    alloc: Global,
    model: &Model,
    modes: Pairs<'_>,
    subject: Subject,
    value: u8,
) -> Option<bool> {
    let modes = modes_of(alloc, model, modes)?;
    let formula = is(model, subject, value)?;
    let worlds = Worlds::of(alloc, model).ok()?;
    worlds.follows(alloc, model, &modes, &formula).ok()
}

/// The numbers of a state's modes and of a world's values.
type Answer<'a> = (&'a [u8], &'a [u8]);

fn is_found(found: &Found, answer: Answer<'_>) -> bool {
    found.state.modes.as_slice() == answer.0 && found.world.values.as_slice() == answer.1
}

/// Whether that state and world are found, or none.
fn is_answer(found: Option<Option<Found>>, answer: Option<Answer<'_>>) -> bool {
    match found {
        Some(Some(found)) => match answer {
            Some(answer) => is_found(&found, answer),
            None => false,
        },
        Some(None) => answer.is_none(),
        None => false,
    }
}

/// Modes, what is seen, and the first state and world of them, if any.
type Row<'a> = (Pairs<'a>, Pairs<'a>, Option<Answer<'a>>);

fn are_answers(alloc: Global, model: &Model, rows: &[Row<'_>]) -> bool {
    for row in rows {
        if !is_answer(world_of(alloc, model, row.0, row.1), row.2) {
            return false;
        }
    }
    true
}

/// Whether the first states and worlds of the model of this text are as the rows say.
fn has_worlds(alloc: Global, text: &str, rows: &[Row<'_>]) -> bool {
    match model_of(alloc, text) {
        Some(model) => are_answers(alloc, &model, rows),
        None => false,
    }
}

/// The clauses of the model's rules.
fn rule_clauses(alloc: Global, model: &Model) -> Option<Clauses> {
    clauses_of(alloc, model, None, None).ok()
}

fn are_met(alloc: Global, model: &Model, values: &[u8]) -> Option<bool> {
    let clauses = rule_clauses(alloc, model)?;
    Some(all_true(&clauses, values))
}

/// Whether these values of the model's subjects make each clause of its rules true.
fn rules_hold(alloc: Global, text: &str, values: &[u8]) -> Option<bool> {
    let model = model_of(alloc, text)?;
    are_met(alloc, &model, values)
}

#[test]
fn clauses_say_what_rules_say(rt: HostRuntime) {
    assert!(rt; rules_hold(rt.alloc(), VALVE, &[0, 1, 1]) == Some(true));
    assert!(rt; rules_hold(rt.alloc(), VALVE, &[0, 1, 0]) == Some(false));
}

#[test]
fn worlds_of_the_valve(rt: HostRuntime) {
    let rows: [Row<'_>; 5] = [
        (&[(1, 1)], &[], Some((&[0, 1], &[1]))),
        (&[], &[], Some((&[0, 0], &[0]))),
        (&[], &[(0, 1)], Some((&[0, 1], &[1]))),
        (&[(1, 0)], &[(0, 1)], None),
        (&[], &[(0, 1), (0, 0)], None),
    ];
    assert!(rt; has_worlds(rt.alloc(), VALVE, &rows));
}

/// Whether the first state of these modes in which the subject has another value, with a world, is the answer, and the value follows
/// exactly where there is none.
fn has_counter(
    alloc: Global,
    modes: Pairs<'_>,
    subject: Subject,
    value: u8,
    answer: Option<Answer<'_>>,
) -> bool {
    match model_of(alloc, VALVE) {
        Some(model) => {
            follows_from(alloc, &model, modes, subject, value) == Some(answer.is_none())
                && is_answer(counter_of(alloc, &model, modes, subject, value), answer)
        }
        None => false,
    }
}

#[test]
fn counterexamples_of_the_valve(rt: HostRuntime) {
    let other: Option<Answer<'_>> = Some((&[1, 0], &[0]));
    assert!(rt; has_counter(rt.alloc(), &[(0, 1)], Subject::Component(1), 1, other));
    assert!(rt; has_counter(rt.alloc(), &[(1, 1)], Subject::Variable(0), 1, None));
}
