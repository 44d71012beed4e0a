//! Lines of a script that are read by themselves, with observations pending and variables mirrored.

use cca_base::*;
use conformance_parts::{Pairs, model_of, reader_of, seen};
use model_syntax::ModelReader;
use script_reader::{NamedModel, read_event, read_named_event};
use std::alloc::Global;
use std::test::*;

/// A driver and a valve, a sensor for the flow and one for heat, and a load that nothing senses.
const SENSED_VALVE: &str = "titan 1
component drv = off, on start off
component valve = closed, open, stuck start closed
var flow = none, some sensed
var load = low, high
var heat = low, high sensed";

/// What a line is answered.
#[derive(Clone, Copy)]
enum Answer<'a> {
    Nothing,
    Goal(Pairs<'a>),
    Clear,
    Observe(Pairs<'a>),
    Fault(u16, u8),
    Mirror(u16),
    Reset,
    Tick,
    Refused(u8),
}

fn are_pairs(pairs: &[Pair], wanted: Pairs<'_>) -> bool {
    let mut both = pairs.iter().zip(wanted);
    pairs.len() == wanted.len() && both.all(|(pair, place)| (pair.item, pair.value) == *place)
}

fn is_event(event: &Event, wanted: Answer<'_>) -> bool {
    match (event, wanted) {
        (Event::Goal(pairs), Answer::Goal(wanted)) => are_pairs(pairs.as_slice(), wanted),
        (Event::Observe(pairs), Answer::Observe(wanted)) => are_pairs(pairs.as_slice(), wanted),
        (Event::Fault(pair), Answer::Fault(c, mode)) => pair.item == c && pair.value == mode,
        (Event::Mirror(v), Answer::Mirror(wanted)) => *v == wanted,
        (Event::Clear, Answer::Clear) | (Event::Reset, Answer::Reset) => true,
        (Event::Tick, Answer::Tick) => true,
        _ => false,
    }
}

fn is_answer(read: &Result<Option<Event>, Stop>, wanted: Answer<'_>) -> bool {
    match (read, wanted) {
        (Ok(None), Answer::Nothing) => true,
        (Ok(Some(event)), wanted) => is_event(event, wanted),
        (Err(Stop::Refused(refusal)), Answer::Refused(code)) => refusal.code == code,
        _ => false,
    }
}

/// Whether the line is answered so.
fn answers(
    alloc: Global,
    model: &Model,
    pending: &Seen,
    mirrored: VarSet,
    row: (&str, Answer<'_>),
) -> bool {
    let read = read_event(alloc, row.0.as_bytes(), model, pending, mirrored);
    is_answer(&read, row.1)
}

/// How many lines, from the first on, are answered as their rows say.
fn rows_answered(
    alloc: Global,
    model: &Model,
    pending: &Seen,
    mirrored: VarSet,
    rows: &[(&str, Answer<'_>)],
) -> usize {
    for i in 0..rows.len() {
        if !answers(alloc, model, pending, mirrored, rows[i]) {
            return i;
        }
    }
    rows.len()
}

/// The same over the valve's model, with these values pending and these variables mirrored.
fn valve_rows(
    alloc: Global,
    pending: Pairs<'_>,
    mirrored: VarSet,
    rows: &[(&str, Answer<'_>)],
) -> Option<usize> {
    let model = model_of(alloc, SENSED_VALVE)?;
    match seen(alloc, &model, pending) {
        Some(pending) => Some(rows_answered(alloc, &model, &pending, mirrored, rows)),
        None => None,
    }
}

#[test]
fn each_form_is_an_event(rt: HostRuntime) {
    let rows: [(&str, Answer<'_>); 14] = [
        ("", Answer::Nothing),
        (" \t", Answer::Nothing),
        ("# goal valve = open", Answer::Nothing),
        ("goal valve = open", Answer::Goal(&[(1, 1)])),
        (
            "goal valve=closed,drv=on # both",
            Answer::Goal(&[(1, 0), (0, 1)]),
        ),
        ("clear", Answer::Clear),
        ("observe heat = high", Answer::Observe(&[(2, 1)])),
        (
            "observe heat = low, flow = some",
            Answer::Observe(&[(2, 0), (0, 1)]),
        ),
        ("fault drv = off", Answer::Fault(0, 0)),
        ("fault valve = stuck", Answer::Fault(1, 2)),
        ("mirror flow", Answer::Mirror(0)),
        ("mirror heat", Answer::Mirror(2)),
        ("reset", Answer::Reset),
        ("\ttick", Answer::Tick),
    ];
    assert!(rt; valve_rows(rt.alloc(), &[], VarSet::empty(), &rows) == Some(14));
}

/// What is pending alone, or mirrored alone; and both for a variable that isn't sensed.
#[test]
fn pending_and_mirrored_variables_are_told_apart(rt: HostRuntime) {
    let pending = [
        ("observe flow = some", Answer::Refused(15)),
        ("mirror flow", Answer::Refused(15)),
        ("observe heat = low", Answer::Observe(&[(2, 0)])),
        (
            "observe heat = low, flow = none, heat = high",
            Answer::Refused(15),
        ),
        ("mirror heat", Answer::Mirror(2)),
    ];
    let mirrored = [
        ("observe flow = none", Answer::Refused(16)),
        ("mirror flow", Answer::Refused(16)),
        ("observe heat = low, flow = none", Answer::Refused(16)),
        ("observe heat = low, heat = high", Answer::Refused(15)),
        ("mirror heat", Answer::Mirror(2)),
    ];
    let unsensed = [
        ("observe load = low", Answer::Refused(13)),
        ("mirror load", Answer::Refused(13)),
    ];
    let flow = VarSet::empty().with(0);
    let load = VarSet::empty().with(1);
    assert!(rt; valve_rows(rt.alloc(), &[(0, 0)], VarSet::empty(), &pending) == Some(5));
    assert!(rt; valve_rows(rt.alloc(), &[], flow, &mirrored) == Some(5));
    assert!(rt; valve_rows(rt.alloc(), &[(1, 0)], load, &unsensed) == Some(2));
}

/// Whether the line is answered so by the map of the reader's names.
fn named_answers(alloc: Global, reader: ModelReader, row: (&str, Answer<'_>)) -> bool {
    let (model, names) = reader.finish_named();
    let pending = Seen {
        pairs: List::new(alloc),
    };
    let line = row.0.as_bytes();
    let named = NamedModel::new(&model, &names);
    let read = read_named_event(alloc, line, named, &pending, VarSet::empty());
    is_answer(&read, row.1)
}

fn valve_answers_by_names(alloc: Global, row: (&str, Answer<'_>)) -> bool {
    match reader_of(alloc, SENSED_VALVE) {
        Some(reader) => named_answers(alloc, reader, row),
        None => false,
    }
}

#[test]
fn names_are_found_by_the_map_too(rt: HostRuntime) {
    let goal = (
        "goal valve = open, drv = on",
        Answer::Goal(&[(1, 1), (0, 1)]),
    );
    assert!(rt; valve_answers_by_names(rt.alloc(), goal));
    assert!(rt; valve_answers_by_names(rt.alloc(), ("mirror load", Answer::Refused(13))));
}
