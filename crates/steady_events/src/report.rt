//! The report of a tick, of which nothing is copied.

ghost use Rattle.std.specs.Prelude.{◌≡◌};
ghost use Rattle.executive_loop.specs.Borrowed.{report_with};
ghost use Rattle.trace_text.specs.ReportRefs.{report_read};

use cca_base::State;
use executive_loop::{Made, Outcome};
use trace_text::{ReportRef, ShownRef};

/// The report of a tick that left this estimate.
pub fn reported(made: Made, estimate: &State) -> ReportRef<'_>
    ensures { report_read result ≡ report_with estimate.now.modes made }
{
    let Made { tick, outcome } = made;
    let shown = match outcome {
        Outcome::Estimated { cost, reply } => ShownRef::Estimated {
            cost,
            state: estimate,
            reply,
        },
        Outcome::Unexplained => ShownRef::Unexplained,
        Outcome::Holding => ShownRef::Holding,
    };
    ReportRef { tick, shown }
}
