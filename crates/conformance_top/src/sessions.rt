//! A session of `run` over a valve that is opened: what is taken out of it, and how it ends.

use conformance_parts::STICKING_VALVE;
use line_machine::End;
use run_form::{Notation, RunMachine, open_run};
use std::alloc::Global;
use std::test::*;
use titan_session::{Session, Stage, is_one_line};

/// A session before its first line.
fn opened(alloc: Global) -> Option<Session<RunMachine>> {
    let machine = open_run(alloc, Notation::Words).ok()?;
    Some(Session::open(alloc, machine))
}

/// Hands the line to the session, if it goes on.
fn takes(alloc: Global, session: &mut Session<RunMachine>, line: &str) -> bool {
    session.is_going()
        && is_one_line(line.as_bytes())
        && session.line(alloc, line.as_bytes()).is_ok()
}

/// Hands the lines of the text to the session, while it goes on.
fn takes_all(alloc: Global, session: &mut Session<RunMachine>, text: &str) -> bool {
    for line in text.lines() {
        if !takes(alloc, session, line) {
            return false;
        }
    }
    true
}

/// Tells the session that no line comes any more, if it goes on.
fn finishes(alloc: Global, session: &mut Session<RunMachine>) -> bool {
    session.is_going() && session.finish(alloc).is_ok()
}

/// Whether the session is over, and its end says so.
fn has_ended(session: &Session<RunMachine>) -> bool {
    match session.stage() {
        Stage::Over(End::Ended) => true,
        _ => false,
    }
}

/// Whether these bytes are all that waits.
fn gives(session: &mut Session<RunMachine>, wanted: &[u8]) -> bool {
    let mut out = [0u8; 256];
    let count = session.take(&mut out);
    count <= 256 && &out[..count] == wanted
}

/// Whether a session of the model and the script ends, and gives this text.
fn runs(alloc: Global, model: &str, script: &str, wanted: &str) -> bool {
    let Some(mut session) = opened(alloc) else {
        return false;
    };
    takes_all(alloc, &mut session, model)
        && takes_all(alloc, &mut session, script)
        && finishes(alloc, &mut session)
        && has_ended(&session)
        && gives(&mut session, wanted.as_bytes())
}

/// The row `valve_opens`: the script, and what is printed.
const SCRIPT: &str = "script
goal valve = open
tick
tick
tick";

const PRINTED: &str = "tick 1 cost 0 modes drv=off valve=closed send drv_on
tick 2 cost 0 modes drv=on valve=closed send v_open
tick 3 cost 0 modes drv=on valve=open achieved
";

#[test]
fn a_session_is_a_run(rt: HostRuntime) {
    assert!(rt; runs(rt.alloc(), STICKING_VALVE, SCRIPT, PRINTED));
}
