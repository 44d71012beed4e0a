//! An event that is borrowed: its pairs stay with their owner.

ghost use Rattle.std.specs.Prelude.{◌≡◌};
ghost use Rattle.executive_loop.specs.Borrowed.{event_read};

use cca_base::{Event, Pair};

/// An event, with borrowed pairs.
#[derive(Clone, Copy, Debug)]
pub enum EventRef<'a> {
    /// The pairs are the goal from now on, in place of an earlier one.
    Goal(&'a [Pair]),
    /// There is no goal from now on.
    Clear,
    /// The next tick's observations have these variables' values too.
    Observe(&'a [Pair]),
    /// The plant's component goes to the mode.
    Fault(Pair),
    /// From now on each tick observes the variable's value in the plant.
    Mirror(u16),
    /// Everything is as at the start; goal, observations and mirrors are gone.
    Reset,
    Tick,
}

impl EventRef<'_> {
    /// The event, borrowed.
    pub fn of(event: &Event) -> EventRef<'_>
        ensures { event_read result ≡ event.now }
    {
        match event {
            Event::Goal(pairs) => EventRef::Goal(pairs.as_slice()),
            Event::Clear => EventRef::Clear,
            Event::Observe(pairs) => EventRef::Observe(pairs.as_slice()),
            Event::Fault(pair) => EventRef::Fault(*pair),
            Event::Mirror(v) => EventRef::Mirror(*v),
            Event::Reset => EventRef::Reset,
            Event::Tick => EventRef::Tick,
        }
    }
}
