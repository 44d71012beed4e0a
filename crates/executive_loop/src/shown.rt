//! Copies of what an executive keeps, as lists.

ghost use Rattle.std.specs.Prelude.{◌≡◌, ◌≤◌, [], None, length, IfOk, IfSome};
ghost use Rattle.std.specs.Option.{option_map};
ghost use Rattle.executive_loop.specs.Borrowed.{report_with};
ghost use Rattle.executive_loop.specs.Copied.{AreEmptyCopies, AreListsOf};

use crate::made::Made;
use crate::steady::SteadyExecutive;
use bounded_list::BoundedList;
use cca_base::{Goal, List, MAX_COMPONENTS, MAX_VARIABLES, Pair, Seen, State, TickReport};
use std::alloc::{AllocError, Global};
use trace_laws::nothing_seen;

/// Lists of what an executive has pending, wants and saw last.
#[derive(Drop)]
pub(crate) struct Lists {
    pub pending: Seen,
    pub goal: Option<Goal>,
    pub last_seen: Seen,
}

impl Lists {
    /// Nothing of all.
    pub fn empty(alloc: Global) -> Lists
        ensures { result ≡ record { pending = record { pairs = [] }; goal = None; last_seen = record { pairs = [] } } }
    {
        Lists {
            pending: nothing_seen(alloc),
            goal: None,
            last_seen: nothing_seen(alloc),
        }
    }
}

/// Memory for such lists and for an estimate, taken before an event is made.
#[derive(Drop)]
pub(crate) struct Copies {
    pending: BoundedList<Pair>,
    goal: BoundedList<Pair>,
    last_seen: BoundedList<Pair>,
    estimate: BoundedList<u8>,
}

/// The list of these items, in memory that was taken for it.
fn filled<T: Copy>(mut room: BoundedList<T>, items: &[T]) -> List<T>
    requires empty { room.items ≡ [] }
    requires room { length items.now ≤ room.room }
    ensures { result ≡ items.now }
{
    room.push_all(items);
    List::of(room.into_vec())
}

/// The goal of these pairs, if there are some, in memory that was taken for it.
fn goal_of(room: BoundedList<Pair>, pairs: Option<&[Pair]>) -> Option<Goal>
    requires empty { room.items ≡ [] }
    requires room { IfSome pairs (λ g. length g.now ≤ room.room) }
    ensures { option_map (λ g. g.pairs) result ≡ option_map (λ g. g.now) pairs.entry }
{
    match pairs {
        None => None,
        Some(pairs) => Some(Goal {
            pairs: filled(room, pairs),
        }),
    }
}

/// The report of what a tick came to, if there was one, with the estimate that it left.
fn report_of(made: Option<Made>, state: State) -> Option<TickReport>
    ensures { result ≡ option_map (report_with state.modes) made }
{
    Some(made?.report(state))
}

impl Copies {
    /// Memory for lists of any model. The error is out of memory.
    pub fn new(alloc: Global) -> Result<Copies, AllocError>
        ensures { IfOk result AreEmptyCopies }
    {
        Ok(Copies {
            pending: BoundedList::with_room(alloc, MAX_VARIABLES)?,
            goal: BoundedList::with_room(alloc, MAX_COMPONENTS)?,
            last_seen: BoundedList::with_room(alloc, MAX_VARIABLES)?,
            estimate: BoundedList::with_room(alloc, MAX_COMPONENTS)?,
        })
    }

    /// The lists of the executive, and the report of a tick that it has just made.
    pub fn filled(self, steady: &SteadyExecutive, made: Option<Made>) -> (Lists, Option<TickReport>)
        requires { AreEmptyCopies self }
        ensures lists { AreListsOf steady.now result.0 }
        ensures report { result.1 ≡ option_map (report_with steady.now.state.estimate) made }
    {
        let _compiled = steady.compiled();
        let lists = Lists {
            pending: Seen {
                pairs: filled(self.pending, steady.pending()),
            },
            goal: goal_of(self.goal, steady.goal()),
            last_seen: Seen {
                pairs: filled(self.last_seen, steady.last_seen()),
            },
        };
        let state = State {
            modes: filled(self.estimate, steady.estimate().modes.as_slice()),
        };
        (lists, report_of(made, state))
    }
}
