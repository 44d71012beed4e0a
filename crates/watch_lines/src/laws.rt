//! A line says one thing.

ghost use Rattle.watch_lines.specs.WatchEvents.{SentCodes, WatchEventsAreOne};

/// With what is pending a line says one thing, or is refused with one code.
#[tactic(auto, using(crate::proofs::OneWatchEvent::watch_events_are_one))]
pub fn watch_events_are_one()
    ensures { WatchEventsAreOne }
{}

/// Which code a command that was sent has.
#[tactic(auto, using(crate::proofs::SentCodes::sent_codes))]
pub fn sent_codes()
    ensures { SentCodes }
{}
