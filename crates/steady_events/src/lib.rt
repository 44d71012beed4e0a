//! What passes between the lines of a script and an executive: the event that a line asks for, read into a place that is made once, and
//! what a tick came to as a report of which nothing is copied. Neither takes memory.
#![tactic(auto)]

mod event_place;
mod report;

pub use event_place::EventPlace;
pub use report::reported;
