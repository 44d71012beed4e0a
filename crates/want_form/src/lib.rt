//! The form `want`: behind an accepted model weights and modes are set, line by line, and for each wish the target state is printed
//! with the plan to it. Its text is that of the one target of each wish.
#![tactic(auto)]

mod laws;
mod weights;
mod wishing;

pub use laws::wishes_are_told;
pub use wishing::{WantMachine, Wishing, open_want};
