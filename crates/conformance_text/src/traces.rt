//! Lines of traces, read back and written again.

use cca_base::*;
use conformance_parts::{STICKING_VALVE, model_of};
use std::alloc::Global;
use std::test::*;
use trace_text::{LineFault, TraceLine, line_of, read_line, route_lines, world_line};

/// What is read from a line.
fn value_of(alloc: Global, model: &Model, line: &str) -> Result<TraceLine, LineFault> {
    read_line(alloc, model, line.as_bytes())
}

/// The text of what was read; a plan, and likewise a way back, stands beside an empty one.
fn text_of(alloc: Global, model: &Model, value: TraceLine) -> Option<List<u8>> {
    let none = PlanEnd::Plan(List::new(alloc));
    let text = match value {
        TraceLine::Tick(report) => line_of(alloc, model, &report),
        TraceLine::World(world) => world_line(alloc, model, &world),
        TraceLine::Plan(plan) => route_lines(alloc, model, &Route { plan, back: none }),
        TraceLine::Back(back) => route_lines(alloc, model, &Route { plan: none, back }),
    };
    text.ok()
}

/// Whether the line is read, and its value has the text.
fn is_read(alloc: Global, model: &Model, line: &str, wanted: &str) -> bool {
    let Ok(value) = value_of(alloc, model, line) else {
        return false;
    };
    match text_of(alloc, model, value) {
        Some(text) => text.as_slice() == wanted.as_bytes(),
        None => false,
    }
}

/// How many of the lines are read as values of the texts beside them, up to the first that is not.
fn lines_read(alloc: Global, model: &str, rows: &[(&str, &str)]) -> usize {
    let Some(model) = model_of(alloc, model) else {
        return 0;
    };
    for (i, row) in rows.iter().enumerate() {
        if !is_read(alloc, &model, row.0, row.1) {
            return i;
        }
    }
    rows.len()
}

/// Whether the line is no text.
fn is_no_line(alloc: Global, model: &Model, line: &str) -> bool {
    match value_of(alloc, model, line) {
        Err(LineFault::NotALine) => true,
        _ => false,
    }
}

/// How many of the lines are no text, up to the first that is one.
fn lines_refused(alloc: Global, model: &str, lines: &[&str]) -> usize {
    let Some(model) = model_of(alloc, model) else {
        return 0;
    };
    for (i, line) in lines.iter().enumerate() {
        if !is_no_line(alloc, &model, line) {
            return i;
        }
    }
    lines.len()
}

#[test]
fn proof_lines_are_read_back(rt: HostRuntime) {
    let rows = [
        (
            "tick 1 cost 0 modes drv=off valve=closed send drv_on",
            "tick 1 cost 0 modes drv=off valve=closed send drv_on\n",
        ),
        ("world flow=none", "world flow=none\n"),
        (
            "plan drv_on v_open drv_off",
            "plan drv_on v_open drv_off\nback\n",
        ),
        (
            "back drv_on v_close drv_off",
            "plan\nback drv_on v_close drv_off\n",
        ),
        (
            "tick 4 cost 18446744073709551615 modes drv=on valve=stuck achieved",
            "tick 4 cost 18446744073709551615 modes drv=on valve=stuck achieved\n",
        ),
        ("world flow=some", "world flow=some\n"),
        (
            "tick 5 cost 10 modes drv=on valve=open unreachable valve=stuck",
            "tick 5 cost 10 modes drv=on valve=open unreachable valve=stuck\n",
        ),
        (
            "tick 6 cost 0 modes drv=off valve=open idle",
            "tick 6 cost 0 modes drv=off valve=open idle\n",
        ),
        ("tick 7 unexplained", "tick 7 unexplained\n"),
        ("tick 8 holding", "tick 8 holding\n"),
        ("plan long", "plan long\nback\n"),
        ("back", "plan\nback\n"),
    ];
    assert!(rt; lines_read(rt.alloc(), STICKING_VALVE, &rows) == 12);
}

#[test]
fn other_lines_are_no_text(rt: HostRuntime) {
    let lines = [
        "",
        " ",
        "tick",
        "tick 1",
        "tick 01 holding",
        "tick +1 holding",
        "tick 1 holding ",
        "tick 1  holding",
        "tick 18446744073709551616 holding",
        "tick 1 cost 18446744073709551616 modes drv=off valve=open idle",
        "tick 1 cost 00 modes drv=off valve=open idle",
        "tick 1 cost 0 modes drv=off valve=open",
        "tick 1 cost 0 modes valve=open drv=off idle",
        "tick 1 cost 0 modes drv=off valve=shut idle",
        "tick 1 cost 0 modes drv=off valve=open idle idle",
        "tick 1 cost 0 modes drv=off valve=open send",
        "tick 1 cost 0 modes drv=off valve=open send v_shut",
        "tick 1 cost 0 modes drv=off valve=open unreachable flow=some",
        "world",
        "world flow=much",
        "world flow=none flow=none",
        "World flow=none",
        "plan drv_on,v_open",
        "plan drv_on v_shut",
        "trace",
    ];
    assert!(rt; lines_refused(rt.alloc(), STICKING_VALVE, &lines) == 25);
}
