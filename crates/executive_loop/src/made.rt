//! What a tick came to.

ghost use Rattle.std.specs.Prelude.{◌≡◌};
ghost use Rattle.executive_loop.specs.Borrowed.{report_with};

use cca_base::{Reply, Shown, State, TickReport};

/// What a tick came to. The estimate that it left stands in its executive.
#[derive(Clone, Copy, Debug, PartialEq, Eq)]
pub enum Outcome {
    Estimated {
        /// The cost of the failures of this tick.
        cost: u64,
        reply: Reply,
    },
    /// No successor of the estimate fits the observations.
    Unexplained,
    /// An earlier tick was unexplained, and nothing was estimated since.
    Holding,
}

/// A tick that was made.
#[derive(Clone, Copy, Debug, PartialEq, Eq)]
pub struct Made {
    /// The tick's number over the whole script, from 1.
    pub tick: u64,
    pub outcome: Outcome,
}

impl Made {
    /// The tick's report, with the estimate that it left.
    pub fn report(self, state: State) -> TickReport
        ensures { result ≡ report_with state.modes self }
    {
        let Made { tick, outcome } = self;
        let shown = match outcome {
            Outcome::Estimated { cost, reply } => Shown::Estimated { cost, state, reply },
            Outcome::Unexplained => Shown::Unexplained,
            Outcome::Holding => Shown::Holding,
        };
        TickReport { tick, shown }
    }
}
