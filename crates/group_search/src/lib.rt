//! The least solution of a question whose components each take a path, and of equals the one whose values come first. Components that
//! no clash joins are searched apart: each group of them has a floor that the search keeps.
#![tactic(auto)]

mod best;
mod choose;
mod columns;
mod find;
mod focus;
mod groups;
mod halves;
mod judge;
mod least;
mod lower;
mod marks;
mod path_box;
mod question;
mod rising;
mod settle;
mod spending;
mod staying;
mod store;
mod values;
mod work;

pub use columns::{Chosen, Columns, MAX_PATH};
pub use groups::{group_cost, is_in_group};
pub use least::{SearchRoom, least_in, least_solution};
pub use question::Paths;
pub use values::has_value;
