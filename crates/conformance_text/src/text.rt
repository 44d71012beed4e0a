//! The tokens of a line, a reader of model lines that goes on after refusals, and formulas that are read by themselves.

use cca_base::{Model, Stop};
use conformance_parts::{VALVE, model_of};
use model_syntax::{LineEnd, ModelReader, read_formula};
use std::alloc::Global;
use std::test::*;
use text_base::{Token, tokens};

fn are_tokens(tokens: &[Token], places: &[(usize, usize)]) -> bool {
    let mut both = tokens.iter().zip(places);
    tokens.len() == places.len() && both.all(|(token, place)| (token.start, token.end) == *place)
}

/// Whether the line's tokens stand at these places.
fn has_tokens(alloc: Global, line: &[u8], places: &[(usize, usize)]) -> bool {
    match tokens(alloc, line) {
        Ok(tokens) => are_tokens(tokens.as_slice(), places),
        Err(_) => false,
    }
}

#[test]
fn a_line_has_three_tokens(rt: HostRuntime) {
    assert!(rt; has_tokens(rt.alloc(), b"a=b", &[(0, 1), (1, 2), (2, 3)]));
}

/// The code of a refusal, 98 without memory.
fn code_of(stop: &Stop) -> u8 {
    match stop {
        Stop::Refused(refusal) => refusal.code,
        Stop::Memory => 98,
    }
}

/// What a line is answered: its code, 0 where it is taken, 100 where it ends the model.
fn answer(reader: &mut ModelReader, line: &str) -> u8 {
    match reader.line(line.as_bytes()) {
        Ok(LineEnd::Going) => 0,
        Ok(LineEnd::Script) => 100,
        Err(stop) => code_of(&stop),
    }
}

/// Whether each line has its answer.
fn answers(reader: &mut ModelReader, rows: &[(&str, u8)]) -> bool {
    for row in rows {
        if answer(reader, row.0) != row.1 {
            return false;
        }
    }
    true
}

/// How many failures the model of the lines has, if each line has its answer.
fn failures_after(alloc: Global, rows: &[(&str, u8)]) -> Option<usize> {
    let mut reader = ModelReader::open(alloc).ok()?;
    if !answers(&mut reader, rows) {
        return None;
    }
    Some(reader.finish().failures().len())
}

#[test]
fn a_reader_goes_on_after_a_refusal(rt: HostRuntime) {
    let rows = [
        ("script", 1),
        ("titan 1", 0),
        ("component x = a, a start a", 3),
        ("component x = a, b start a", 0),
        ("fail x a -> c cost 1", 2),
        ("fail x a -> b cost 1", 0),
        ("script x", 1),
        ("script", 100),
    ];
    assert!(rt; failures_after(rt.alloc(), &rows) == Some(1));
}

/// What a formula's text is answered: its code, 0 where it is read, 98 without memory, 99 for a bad byte.
fn formula_answer(alloc: Global, model: &Model, text: &str) -> u8 {
    let Ok(tokens) = tokens(alloc, text.as_bytes()) else {
        return 99;
    };
    match read_formula(alloc, model, tokens.as_slice()) {
        Ok(_formula) => 0,
        Err(stop) => code_of(&stop),
    }
}

fn formulas_answer(alloc: Global, model: &Model, rows: &[(&str, u8)]) -> bool {
    rows.iter()
        .all(|row| formula_answer(alloc, model, row.0) == row.1)
}

/// Whether each formula's text has its answer over the valve's model.
fn valve_answers(alloc: Global, rows: &[(&str, u8)]) -> bool {
    match model_of(alloc, VALVE) {
        Some(model) => formulas_answer(alloc, &model, rows),
        None => false,
    }
}

#[test]
fn a_formula_is_read_by_itself(rt: HostRuntime) {
    let rows = [
        ("flow = some", 0),
        ("not (valve != open) implies flow in {none, none}", 0),
        ("", 1),
        ("flow = some )", 1),
        ("flow = lots", 2),
        ("valve in {open, open, ajar}", 2),
    ];
    assert!(rt; valve_answers(rt.alloc(), &rows));
}
