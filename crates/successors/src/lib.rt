//! What a state may become at a tick, and what each change costs: the nominal successor, the choices of each component,
//! and the plant that follows the commands and faults.
#![tactic(auto)]

mod choice_space;
mod options;
mod plant;
mod row;
mod sent;

pub use choice_space::{ChoiceRows, ChoiceSpace};
pub use options::{choices, choices_in};
pub use plant::Plant;
pub use row::{change, least_costs};
pub use sent::{nominal, obey};
