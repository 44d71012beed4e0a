//! A session of a machine, as that of `run`: it is given its lines one at a time, and what it prints waits until it is
//! taken. Of the machine of `run`, what was taken and what waits is exactly what `titan run` prints for these lines.
#![tactic(auto)]

mod laws;
mod line;
mod pending;
mod session;
mod turn;

pub use laws::sessions_are_runs;
pub use line::is_one_line;
pub use session::{Session, Stage};
