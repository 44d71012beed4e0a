//! A report that is borrowed: what it shows stays with its owner.

ghost use Rattle.std.specs.Prelude.{◌≡◌};
ghost use Rattle.trace_text.specs.ReportRefs.{HasSmallNumbers, report_read, shown_read};

use cca_base::{Reply, Shown, State, TickReport};

/// What a tick shows, with a borrowed estimate.
#[derive(Drop)]
pub enum ShownRef<'a> {
    Estimated {
        /// The cost of the failures of this tick.
        cost: u64,
        /// The estimate.
        state: &'a State,
        reply: Reply,
    },
    /// No successor of the estimate fits the observations.
    Unexplained,
    /// An earlier tick was unexplained, and nothing was estimated since.
    Holding,
}

/// What the executive reports of one tick, with a borrowed estimate.
#[derive(Drop)]
pub struct ReportRef<'a> {
    /// The tick's number over the whole script, from 1.
    pub tick: u64,
    pub shown: ShownRef<'a>,
}

/// What a tick shows, borrowed.
fn shown_of(shown: &Shown) -> ShownRef<'_>
    ensures { shown_read result ≡ shown.now }
{
    match shown {
        Shown::Estimated { cost, state, reply } => ShownRef::Estimated {
            cost: *cost,
            state,
            reply: *reply,
        },
        Shown::Unexplained => ShownRef::Unexplained,
        Shown::Holding => ShownRef::Holding,
    }
}

impl ReportRef<'_> {
    /// Its numbers have 64 bits, as each number that is read.
    pub(crate) fn reads_small_numbers(&self)
        ensures { HasSmallNumbers (report_read self.now) }
    {
        let _tick = self.tick;
        if let ShownRef::Estimated { cost, .. } = &self.shown {
            let _cost = *cost;
        }
    }

    /// The report, borrowed.
    pub fn of(report: &TickReport) -> ReportRef<'_>
        ensures { report_read result ≡ report.now }
    {
        ReportRef {
            tick: report.tick,
            shown: shown_of(&report.shown),
        }
    }
}
