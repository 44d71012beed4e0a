//! What a script says, what a tick shows, and why an input is refused.

ghost use Rattle.std.specs.Prelude.{◌≡◌};
ghost use Rattle.cca_base.specs.declared.events.Stop.TheVariants.{Refused};
ghost use Rattle.cca_base.specs.Refusals.{bare, stop_code};

use crate::cube::{Cube, Pair};
use crate::list::List;
use crate::state::State;
use std::alloc::{AllocError, AllocFailed};

/// What a script says.
#[derive(Debug, Drop)]
pub enum Event {
    /// The pairs are the goal from now on, in place of an earlier one.
    Goal(List<Pair>),
    /// There is no goal from now on.
    Clear,
    /// The next tick's observations have these variables' values too.
    Observe(List<Pair>),
    /// The plant's component goes to the mode.
    Fault(Pair),
    /// From now on each tick observes the variable's value in the plant.
    Mirror(u16),
    /// Everything is as at the start; goal, observations and mirrors are gone.
    Reset,
    /// The executive takes the observations, estimates the state and answers.
    Tick,
}

/// What a tick with an estimate answers.
#[derive(Clone, Copy, Debug, PartialEq, Eq)]
pub enum Reply {
    /// There is no goal.
    Idle,
    /// The command is sent.
    Send(u16),
    /// The estimate has all pairs of the goal.
    Achieved,
    /// The goal's first pair that cannot be reached: a component and a mode.
    Unreachable(u16, u8),
}

/// What a tick shows.
#[derive(Debug, Drop)]
pub enum Shown {
    Estimated {
        /// The cost of the failures of this tick.
        cost: u64,
        /// The estimate.
        state: State,
        reply: Reply,
    },
    /// No successor of the estimate fits the observations.
    Unexplained,
    /// An earlier tick was unexplained, and nothing was estimated since.
    Holding,
}

/// What the executive reports of one tick.
#[derive(Debug, Drop)]
pub struct TickReport {
    /// The tick's number over the whole script, from 1.
    pub tick: u64,
    pub shown: Shown,
}

/// A plan, where it is short enough to be written down.
#[derive(Debug, Drop)]
pub enum PlanEnd {
    /// The commands, first to last.
    Plan(List<u16>),
    /// There are too many commands.
    Long,
}

/// A plan to the goal, and one from its end back to where it began.
#[derive(Debug, Drop)]
pub struct Route {
    pub plan: PlanEnd,
    pub back: PlanEnd,
}

/// What a refusal names besides its code.
#[derive(Debug, Drop)]
pub enum Detail {
    Nothing,
    Pairs(Cube),
    /// The number of a move.
    OfMove(u16),
    /// The numbers of components.
    Components(List<u16>),
}

/// Why an input is refused.
#[derive(Debug, Drop)]
pub struct Refusal {
    /// The number of the rule that the input breaks, from 1.
    pub code: u8,
    pub detail: Detail,
}

impl Refusal {
    /// A refusal that names nothing besides its code.
    pub fn bare(code: u8) -> Refusal
        ensures { result ≡ bare code }
    {
        Refusal {
            code,
            detail: Detail::Nothing,
        }
    }
}

/// Why reading ends before the input does.
#[derive(Debug, Drop)]
pub enum Stop {
    Refused(Refusal),
    /// Memory ran out.
    Memory,
}

impl Stop {
    /// A refusal that names nothing besides its code.
    pub fn refused(code: u8) -> Stop
        ensures { result ≡ Refused (bare code) }
    {
        Stop::Refused(Refusal::bare(code))
    }

    /// The code of the refusal, if it is one.
    pub fn code(&self) -> Option<u8>
        ensures { result ≡ stop_code self.now }
    {
        match self {
            Stop::Refused(refusal) => Some(refusal.code),
            Stop::Memory => None,
        }
    }
}

impl From<AllocError> for Stop {
    ghost use Rattle.cca_base.specs.declared.events.Stop.TheVariants.{Memory};

    ghost from_gives = { λ _ e. e ≡ Memory };

    fn from(_e: AllocError) -> Stop {
        Stop::Memory
    }
}

impl<T: Drop> From<AllocFailed<T>> for Stop {
    ghost use Rattle.cca_base.specs.declared.events.Stop.TheVariants.{Memory};

    ghost from_gives = { λ _ e. e ≡ Memory };

    fn from(_e: AllocFailed<T>) -> Stop {
        Stop::Memory
    }
}
