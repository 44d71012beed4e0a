//! Lines that follow a plant which somebody else commands: their grammar, and what each says. A line gives exactly its event, or the
//! least code that applies to it for what is pending.
#![tactic(auto)]

mod laws;
mod watch_event;
mod watch_line;

pub use laws::watch_events_are_one;
pub use watch_event::WatchEvent;
pub use watch_line::{WatchContext, read_watch_line};
