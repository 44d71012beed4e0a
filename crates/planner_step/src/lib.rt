//! The one command that is sent for a goal, found by tables alone.
#![tactic(auto)]

mod answer;
mod missing;
mod next;
mod reached;
mod toward;

pub use answer::Answer;
pub use next::{answer_for, next_command};
