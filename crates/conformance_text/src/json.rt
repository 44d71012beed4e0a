//! Reports and refusals as lines of JSON.

use cca_base::*;
use conformance_parts::{STICKING_VALVE, list_of, model_of};
use std::alloc::Global;
use std::test::*;
use trace_text::{json_of, refusal_line};

/// The line of a refusal with this code, as JSON.
fn refusal_json(alloc: Global, model: &Model, code: u8) -> Option<List<u8>> {
    refusal_line(alloc, model, 7, &Refusal::bare(code), true).ok()
}

fn is_refused_so(alloc: Global, model: &Model, code: u8, wanted: &str) -> bool {
    match refusal_json(alloc, model, code) {
        Some(line) => line.as_slice() == wanted.as_bytes(),
        None => false,
    }
}

/// How many of the codes have the lines beside them, up to the first that has not.
fn codes_written(alloc: Global, rows: &[(u8, &str)]) -> usize {
    let model = Model::empty(alloc, 1);
    let mut tries = rows.iter();
    tries
        .position(|row| !is_refused_so(alloc, &model, row.0, row.1))
        .unwrap_or(rows.len())
}

#[test]
fn each_code_has_its_line(rt: HostRuntime) {
    let rows = [
        (
            1,
            "{\"code\":1,\"detail\":\"\",\"line\":7,\"refused\":\"malformed\"}\n",
        ),
        (
            2,
            "{\"code\":2,\"detail\":\"\",\"line\":7,\"refused\":\"name_unknown\"}\n",
        ),
        (
            3,
            "{\"code\":3,\"detail\":\"\",\"line\":7,\"refused\":\"name_repeated\"}\n",
        ),
        (
            4,
            "{\"code\":4,\"detail\":\"\",\"line\":7,\"refused\":\"limit\"}\n",
        ),
        (
            5,
            "{\"code\":5,\"detail\":\"\",\"line\":7,\"refused\":\"ambiguous\"}\n",
        ),
        (
            6,
            "{\"code\":6,\"detail\":\"\",\"line\":7,\"refused\":\"into_broken\"}\n",
        ),
        (
            7,
            "{\"code\":7,\"detail\":\"\",\"line\":7,\"refused\":\"unmarked_exit\"}\n",
        ),
        (
            8,
            "{\"code\":8,\"detail\":\"\",\"line\":7,\"refused\":\"two_mends\"}\n",
        ),
        (
            9,
            "{\"code\":9,\"detail\":\"\",\"line\":7,\"refused\":\"clash\"}\n",
        ),
        (
            10,
            "{\"code\":10,\"detail\":\"\",\"line\":7,\"refused\":\"ways\"}\n",
        ),
        (
            11,
            "{\"code\":11,\"detail\":\"\",\"line\":7,\"refused\":\"cycle\"}\n",
        ),
        (
            12,
            "{\"code\":12,\"detail\":\"\",\"line\":7,\"refused\":\"deep\"}\n",
        ),
        (
            13,
            "{\"code\":13,\"detail\":\"\",\"line\":7,\"refused\":\"not_sensed\"}\n",
        ),
        (
            14,
            "{\"code\":14,\"detail\":\"\",\"line\":7,\"refused\":\"broken_goal\"}\n",
        ),
        (
            15,
            "{\"code\":15,\"detail\":\"\",\"line\":7,\"refused\":\"repeated_pair\"}\n",
        ),
        (
            16,
            "{\"code\":16,\"detail\":\"\",\"line\":7,\"refused\":\"mirrored\"}\n",
        ),
        (
            17,
            "{\"code\":17,\"detail\":\"\",\"line\":7,\"refused\":\"ends_early\"}\n",
        ),
        (
            18,
            "{\"code\":18,\"detail\":\"\",\"line\":7,\"refused\":\"long_line\"}\n",
        ),
        (
            19,
            "{\"code\":19,\"detail\":\"\",\"line\":7,\"refused\":\"too_many_lines\"}\n",
        ),
        (
            21,
            "{\"code\":21,\"detail\":\"\",\"line\":7,\"refused\":\"repair_cycle\"}\n",
        ),
        (
            22,
            "{\"code\":22,\"detail\":\"\",\"line\":7,\"refused\":\"many\"}\n",
        ),
        (
            23,
            "{\"code\":23,\"detail\":\"\",\"line\":7,\"refused\":\"unmatched\"}\n",
        ),
    ];
    assert!(rt; codes_written(rt.alloc(), &rows) == 22);
}

/// What a tick shows whose estimate has these modes.
fn estimated(alloc: Global, cost: u64, modes: &[u8], reply: Reply) -> Option<Shown> {
    match list_of(alloc, modes) {
        Some(modes) => Some(Shown::Estimated {
            cost,
            state: State { modes },
            reply,
        }),
        None => None,
    }
}

/// The line of this report, as JSON.
fn report_json(alloc: Global, model: &Model, tick: u64, shown: Shown) -> Option<List<u8>> {
    match json_of(alloc, model, &TickReport { tick, shown }) {
        Ok(line) => Some(line),
        Err(_) => None,
    }
}

/// Whether the report of a tick that shows this, over the valve's model, has this line.
fn is_written_so(alloc: Global, tick: u64, shown: Option<Shown>, wanted: &str) -> bool {
    let (Some(model), Some(shown)) = (model_of(alloc, STICKING_VALVE), shown) else {
        return false;
    };
    match report_json(alloc, &model, tick, shown) {
        Some(line) => line.as_slice() == wanted.as_bytes(),
        None => false,
    }
}

#[test]
fn each_kind_of_reply_has_its_line(rt: HostRuntime) {
    let alloc = rt.alloc();
    let idle = estimated(alloc, 0, &[0, 0], Reply::Idle);
    let send = estimated(alloc, 4, &[1, 2], Reply::Send(4));
    let achieved = estimated(alloc, 18_446_744_073_709_551_615, &[0, 1], Reply::Achieved);
    let unreachable = estimated(alloc, 10, &[1, 0], Reply::Unreachable(1, 1));
    assert!(rt;
        is_written_so(
            alloc,
            1,
            idle,
            "{\"answer\":\"idle\",\"cost\":0,\"modes\":{\"drv\":\"off\",\"valve\":\"closed\"},\"tick\":1}\n"
        )
    );
    assert!(rt;
        is_written_so(
            alloc,
            20,
            send,
            "{\"answer\":\"send\",\"command\":\"v_reset\",\"cost\":4,\"modes\":{\"drv\":\"on\",\"valve\":\"stuck\"},\"tick\":20}\n"
        )
    );
    assert!(rt;
        is_written_so(
            alloc,
            3,
            achieved,
            "{\"answer\":\"achieved\",\"cost\":18446744073709551615,\"modes\":{\"drv\":\"off\",\"valve\":\"open\"},\"tick\":3}\n"
        )
    );
    assert!(rt;
        is_written_so(
            alloc,
            4,
            unreachable,
            "{\"answer\":\"unreachable\",\"component\":\"valve\",\"cost\":10,\"mode\":\"open\",\"modes\":{\"drv\":\"on\",\"valve\":\"closed\"},\"tick\":4}\n"
        )
    );
}
