//! Conflict analysis for a search among worlds: what a trail, its reasons and a learned clause say, how a clause is learned from a clash, and why
//! such a search ends.
#![tactic(auto)]

mod analysis;
mod blaming;
mod entry;
mod laws;
mod level;
mod lower;
mod resolving;
mod subjects;

pub use analysis::analyse;
pub use blaming::blame;
pub use entry::{Entry, Why};
pub use laws::{clauses, ends, learning, trails};
pub use level::learn_from;
pub use lower::{clear, is_apart, narrow_learned, undo};
pub use subjects::{SubjectSet, has_subject, no_subject, with_subject};
