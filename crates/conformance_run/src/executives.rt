//! Events of an executive, one after the other.

ghost use Rattle.std.specs.Prelude.{◌≡◌, ◌<◌, ◌≤◌, ◌+◌, IfSome, length};
ghost use Rattle.cca_base.specs.Prelude.{MayCome};

use crate::compiled::compiled_of;
use cca_base::*;
use conformance_parts::STICKING_VALVE;
use executive_loop::Executive;
use script_reader::read_event;
use std::alloc::Global;
use std::test::*;

/// What comes of it.
#[derive(Clone, Copy)]
enum Comes<'a> {
    Nothing,
    /// An estimate of these modes, with its cost and the reply.
    Shows(&'a [u8], u64, Reply),
    Unexplained,
    Holding,
}

fn is_shown(shown: &Shown, comes: Comes<'_>) -> bool {
    match (shown, comes) {
        (Shown::Estimated { cost, state, reply }, Comes::Shows(modes, known, given)) => {
            *cost == known && state.modes.as_slice() == modes && *reply == given
        }
        (Shown::Unexplained, Comes::Unexplained) => true,
        (Shown::Holding, Comes::Holding) => true,
        _ => false,
    }
}

fn is_report(report: &Option<TickReport>, comes: Comes<'_>) -> bool {
    match report {
        Some(report) => is_shown(&report.shown, comes),
        None => match comes {
            Comes::Nothing => true,
            _ => false,
        },
    }
}

/// The event of a line, as the executive stands.
pub fn event_of(alloc: Global, executive: &Executive, line: &str) -> Option<Event>
    ensures { IfSome result (MayCome executive.now.compiled.model executive.now.state.pending
        executive.now.state.mirrored) }
{
    let model = executive.compiled().model();
    match read_event(
        alloc,
        line.as_bytes(),
        model,
        executive.pending(),
        executive.mirrored(),
    ) {
        Ok(Some(event)) => Some(event),
        _ => None,
    }
}

/// Whether the tables are those around this state; no modes stand for no tables.
fn has_base(executive: &Executive, base: &[u8]) -> bool {
    match executive.tables() {
        Some(tables) => tables.classes().base().modes.as_slice() == base,
        None => base.is_empty(),
    }
}

/// Whether this comes of a line, and these are the tables behind it.
fn comes_of(
    alloc: Global,
    executive: &mut Executive,
    line: &str,
    comes: Comes<'_>,
    base: &[u8],
) -> bool
    requires { executive.old.state.ticks < 1000 }
    ensures { executive.new.state.ticks ≤ executive.old.state.ticks + 1 }
{
    let Some(event) = event_of(alloc, executive, line) else {
        return false;
    };
    match executive.event(&event) {
        Ok(report) => is_report(&report, comes) && has_base(executive, base),
        Err(_) => false,
    }
}

/// An executive of the model of this text, at the start. It is large, so it stands in a box.
pub fn opened(alloc: Global, text: &str) -> Option<Box<Executive>>
    ensures { IfSome result (λ executive. executive.value.state.ticks ≡ 0) }
{
    let compiled = compiled_of(alloc, text)?;
    let executive = Executive::open(alloc, compiled).ok()?;
    Box::new(alloc, executive).ok()
}

/// Whether all of this comes one after the other from the start on, and at the end so many pairs were seen last.
fn all_come(
    alloc: Global,
    executive: &mut Executive,
    rows: &[(&str, Comes<'_>, &[u8])],
    seen: usize,
) -> bool
    requires start { executive.old.state.ticks ≡ 0 }
    requires few { length rows.now < 1000 }
{
    for i in 0..rows.len() {
        let (line, comes, base) = rows[i];
        if !comes_of(alloc, executive, line, comes, base) {
            return false;
        }
    }
    executive.last_seen().pairs.len() == seen
}

/// The same of an executive of the model of this text.
fn plays(alloc: Global, text: &str, rows: &[(&str, Comes<'_>, &[u8])], seen: usize) -> bool
    requires { length rows.now < 1000 }
{
    match opened(alloc, text) {
        None => false,
        Some(mut executive) => all_come(alloc, &mut executive, rows, seen),
    }
}

#[test]
fn a_valve_is_opened_and_mended(rt: HostRuntime) {
    let none: &[u8] = &[];
    let start: &[u8] = &[0, 0];
    let stuck: &[u8] = &[1, 2];
    let rows = [
        ("mirror flow", Comes::Nothing, none),
        ("tick", Comes::Shows(&[0, 0], 0, Reply::Idle), none),
        ("goal valve = open", Comes::Nothing, none),
        ("tick", Comes::Shows(&[0, 0], 0, Reply::Send(0)), start),
        ("tick", Comes::Shows(&[1, 0], 0, Reply::Send(2)), start),
        ("tick", Comes::Shows(&[1, 1], 0, Reply::Achieved), start),
        ("fault valve = stuck", Comes::Nothing, start),
        ("tick", Comes::Shows(&[1, 2], 6, Reply::Send(4)), stuck),
        ("tick", Comes::Shows(&[1, 0], 0, Reply::Send(2)), stuck),
        ("tick", Comes::Shows(&[1, 1], 0, Reply::Achieved), stuck),
        ("clear", Comes::Nothing, stuck),
        ("tick", Comes::Shows(&[1, 1], 0, Reply::Idle), stuck),
    ];
    assert!(rt; plays(rt.alloc(), STICKING_VALVE, &rows, 1));
}
