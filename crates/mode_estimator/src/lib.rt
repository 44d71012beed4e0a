//! The estimate of a tick: the successor of least cost that has a world agreeing with what was observed, or that there is
//! none. It follows one trajectory: the last estimate and the last command are where it starts.
#![tactic(auto)]

mod answer;
mod first;
mod least;
mod space;
mod tick;

pub use answer::Estimate;
pub use least::{estimate, estimate_by, estimate_in};
pub use space::EstimateSpace;
