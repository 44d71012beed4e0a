//! Windows of records, the best trajectory over each, and a tracker from tick to tick.

ghost use Rattle.std.specs.Prelude.{◌≡◌, ◌≤◌, ◌<◌, ◌+◌, All, IfSome, map};
ghost use Rattle.trajectory_estimator.specs.Asked.{AreValues, entry_of};

use acceptance::accept;
use cca_base::*;
use conformance_parts::{Pairs, STICKING_VALVE, model_with, seen, state_of};
use std::alloc::Global;
use std::test::*;
use trajectory_estimator::{MAX_WINDOW, Record, Tracker, Trajectory, Window, best_trajectory};

/// A command, and values of variables.
type Row<'a> = (Option<u16>, Pairs<'a>);

/// A line by which the driver of the valve fails, and one that adds nothing.
const FAILING_DRIVER: &str = "fail drv on -> off cost 2";

const NOTHING_MORE: &str = "";

/// What is compiled of the valve that sticks, with one more line.
fn valve_with(alloc: Global, more: &str) -> Option<Compiled> {
    let model = model_with(alloc, STICKING_VALVE, more)?;
    accept(alloc, model).ok()
}

/// The driver is switched on, a tick passes, and then the valve is opened, but nothing flows.
const NO_FLOW: &[Row<'static>] = &[
    (None, &[]),
    (Some(0), &[]),
    (None, &[]),
    (Some(2), &[(0, 0)]),
];

/// It flows though nothing was commanded.
const FLOW: &[Row<'static>] = &[(None, &[(0, 1)])];

/// The record of this command and these values.
fn record_of(alloc: Global, model: &Model, row: Row<'_>) -> Option<Record>
    ensures { IfSome result (λ r. AreValues model.now (entry_of r)) }
{
    let seen = seen(alloc, model, row.1)?;
    Some(Record {
        command: row.0,
        seen,
    })
}

/// The records of these rows.
fn records_of(alloc: Global, model: &Model, rows: &[Row<'_>]) -> Option<List<Record>>
    ensures { IfSome result (λ l. All (AreValues model.now) (map entry_of l)) }
{
    let mut records = List::new(alloc);
    for row in rows {
        let record = record_of(alloc, model, *row)?;
        records.push(record).ok()?;
    }
    Some(records)
}

/// The best trajectory over the rows from the state of these modes.
fn best_from(
    alloc: Global,
    compiled: &Compiled,
    modes: &[u8],
    rows: &[Row<'_>],
) -> Option<Option<Trajectory>> {
    let anchor = state_of(alloc, compiled.model(), modes)?;
    let records = records_of(alloc, compiled.model(), rows)?;
    if records.len() > MAX_WINDOW {
        return None;
    }
    best_trajectory(alloc, compiled, &anchor, &records).ok()
}

/// The same of the valve with one more line, from its start and that of its driver.
fn best_of(alloc: Global, more: &str, rows: &[Row<'_>]) -> Option<Option<Trajectory>> {
    let compiled = valve_with(alloc, more)?;
    best_from(alloc, &compiled, &[0, 0], rows)
}

fn are_states(states: &[State], wanted: &[&[u8]]) -> bool {
    if states.len() != wanted.len() {
        return false;
    }
    for i in 0..wanted.len() {
        if states[i].modes.as_slice() != wanted[i] {
            return false;
        }
    }
    true
}

/// The modes of each state, and the cost of all.
type Path<'a> = (&'a [&'a [u8]], u64);

fn is_path(path: &Trajectory, wanted: Path<'_>) -> bool {
    path.cost == wanted.1 && are_states(path.states.as_slice(), wanted.0)
}

/// Whether the rows are best explained so.
fn explains(alloc: Global, more: &str, rows: &[Row<'_>], wanted: Path<'_>) -> bool {
    match best_of(alloc, more, rows) {
        Some(Some(path)) => is_path(&path, wanted),
        _ => false,
    }
}

/// Whether nothing explains the rows.
fn is_unexplained(alloc: Global, rows: &[Row<'_>]) -> bool {
    match best_of(alloc, NOTHING_MORE, rows) {
        Some(None) => true,
        _ => false,
    }
}

#[test]
fn the_best_trajectory_has_an_earlier_failure(rt: HostRuntime) {
    let driver: [&[u8]; 4] = [&[0, 0], &[1, 0], &[0, 0], &[0, 0]];
    assert!(rt; explains(rt.alloc(), FAILING_DRIVER, NO_FLOW, (&driver, 2)));
    let valve: [&[u8]; 4] = [&[0, 0], &[1, 0], &[1, 0], &[1, 2]];
    assert!(rt; explains(rt.alloc(), NOTHING_MORE, NO_FLOW, (&valve, 4)));
}

#[test]
fn a_window_may_be_empty_or_unexplained(rt: HostRuntime) {
    assert!(rt; explains(rt.alloc(), NOTHING_MORE, &[], (&[], 0)));
    assert!(rt; is_unexplained(rt.alloc(), FLOW));
}

/// What the tracker answers to a tick with this row.
fn ticked(alloc: Global, tracker: &mut Tracker, row: Row<'_>) -> Option<Window>
    requires { tracker.old.state.ticks < 100 }
    ensures { tracker.new.state.ticks ≤ tracker.old.state.ticks + 1 }
{
    let record = record_of(alloc, tracker.compiled().model(), row)?;
    tracker.tick(record).ok()
}

/// Whether the answer is a trajectory of this cost, over so many records, with this state last, and revised so.
fn finds(
    answer: &Option<Window>,
    count: usize,
    cost: u64,
    last: &[u8],
    first: Option<u64>,
) -> bool {
    match answer {
        Some(Window::Found { path, revised }) => {
            let states = path.states.as_slice();
            *revised == first
                && path.cost == cost
                && states.len() == count
                && count > 0
                && states[count - 1].modes.as_slice() == last
        }
        _ => false,
    }
}

fn has_no_trajectory(answer: &Option<Window>) -> bool {
    match answer {
        Some(Window::Unexplained) => true,
        _ => false,
    }
}

fn is_holding(answer: &Option<Window>) -> bool {
    match answer {
        Some(Window::Holding) => true,
        _ => false,
    }
}

/// A tracker over the valve with one more line, before its first tick.
fn opened(alloc: Global, more: &str) -> Option<Tracker>
    ensures { IfSome result (λ t. t.state.ticks ≡ 0) }
{
    let compiled = valve_with(alloc, more)?;
    Tracker::open(alloc, compiled).ok()
}

/// Whether a fourth tick of the tracker revises the third.
fn revises(alloc: Global, tracker: &mut Tracker) -> bool
    requires { tracker.old.state.ticks ≡ 0 }
{
    let first = ticked(alloc, tracker, (None, &[]));
    let second = ticked(alloc, tracker, (Some(0), &[]));
    let third = ticked(alloc, tracker, (None, &[]));
    let last = ticked(alloc, tracker, (Some(2), &[(0, 0)]));
    finds(&first, 1, 0, &[0, 0], None)
        && finds(&second, 2, 0, &[1, 0], None)
        && finds(&third, 3, 0, &[1, 0], None)
        && finds(&last, 4, 2, &[0, 0], Some(3))
}

/// Whether a fourth tick revises the third.
fn revises_the_third_tick(alloc: Global) -> bool {
    match opened(alloc, FAILING_DRIVER) {
        None => false,
        Some(mut tracker) => revises(alloc, &mut tracker),
    }
}

/// Whether the tracker goes to its start.
fn restarts(tracker: &mut Tracker) -> bool
    ensures { tracker.new.state.ticks ≡ tracker.old.state.ticks }
{
    tracker.reset().is_ok()
}

/// Whether the tracker is at its start again behind a reset.
fn starts_again(alloc: Global, tracker: &mut Tracker) -> bool
    requires { tracker.old.state.ticks ≤ 2 }
{
    if !restarts(tracker) {
        return false;
    }
    let third = ticked(alloc, tracker, (None, &[]));
    finds(&third, 1, 0, &[0, 0], None)
}

/// Whether a tick of the tracker that nothing explains is followed by holding, until a reset.
fn holds(alloc: Global, tracker: &mut Tracker) -> bool
    requires { tracker.old.state.ticks ≡ 0 }
{
    let first = ticked(alloc, tracker, (None, &[(0, 1)]));
    let second = ticked(alloc, tracker, (Some(0), &[]));
    let again = starts_again(alloc, tracker);
    has_no_trajectory(&first) && is_holding(&second) && again
}

/// Whether a tick that nothing explains is followed by holding, until a reset.
fn holds_until_a_reset(alloc: Global) -> bool {
    match opened(alloc, NOTHING_MORE) {
        None => false,
        Some(mut tracker) => holds(alloc, &mut tracker),
    }
}

#[test]
fn a_tracker_revises_a_tick(rt: HostRuntime) {
    assert!(rt; revises_the_third_tick(rt.alloc()));
}

#[test]
fn a_tracker_holds_until_a_reset(rt: HostRuntime) {
    assert!(rt; holds_until_a_reset(rt.alloc()));
}
