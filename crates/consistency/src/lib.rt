//! The first state and world of a model that fit, a counterexample to a formula, and the pairs of a state that are to blame
//! that no world fits it. A caller gets None exactly where there is none.
#![tactic(auto)]

mod asking;
mod backbone;
mod base;
mod calls;
mod clash;
mod conflicts;
mod denied;
mod first;
mod follows;
mod forced_space;
mod forced_values;
mod found;
mod laws;
mod minimal;
mod mirror;
mod observed;
mod pairs;
mod refuted;
mod rules;
mod standing;
mod world_space;
mod worlds;

pub use calls::{find_counter, find_world, forced};
pub use conflicts::conflict;
pub use denied::Denied;
pub use found::Found;
pub use laws::conflicts_are_minimal;
pub use mirror::Mirror;
pub use observed::join;
pub use pairs::{all_pairs, put_pairs};
pub use rules::{Rules, rules_of};
pub use standing::stand_in;
pub use world_space::WorldSpace;
pub use worlds::Worlds;
