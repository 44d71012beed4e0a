//! The form `watch`: behind an accepted model lines say what was commanded and observed of a plant, tick by tick. For each tick the text
//! has one line, which tells how the best trajectory of the last ticks ends.
#![tactic(auto)]

mod laws;
mod told;
mod watching;

pub use laws::{costs_are_least, watch_is_told};
pub use watching::{WatchMachine, Watching, open_watch};
