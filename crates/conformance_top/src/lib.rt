//! Calls of the rooms `forms`, `program` and `library`, with enough memory: a session as a test, a caller of the top call that meets no fault,
//! and the limits of lines.
#![tactic(auto)]

mod limits;
#[cfg(test)]
mod sessions;
mod steady;

pub use limits::line_limits;
pub use steady::run_steady;
