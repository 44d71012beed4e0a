//! The executive: one event after the other, and at each tick the observations, the estimate, the answer and the plant's move. Once it
//! is open, no event takes memory.
#![tactic(auto)]

mod answer;
mod event_ref;
mod executive;
mod kept_standing;
mod made;
mod observed;
mod policy;
mod shown;
mod steady;
mod tick;
mod workspace;

pub use event_ref::EventRef;
pub use executive::Executive;
pub use made::{Made, Outcome};
pub use steady::SteadyExecutive;
