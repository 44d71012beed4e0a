//! States chosen row by row, by rising cost and then in mode order, without those that hold a cut cube: best-first. It is the plain
//! reference of a search for least-cost states.
#![tactic(auto)]

mod costed;
mod part;
mod queue;
mod search;
mod split;
mod whole;

pub use costed::Costed;
pub use part::{Part, Span};
pub use search::Search;
