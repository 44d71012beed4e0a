//! Runs control programs: what a program asks for in each turn, and what is left of it. It keeps one flat list of the
//! program's nodes, with a mark for each.
#![tactic(auto)]

mod asking;
mod goals;
mod marks;
mod nodes;
mod opening;
mod rounds;
mod runner;
mod turn_room;
mod turning;

pub use runner::Runner;
pub use turn_room::TurnRoom;
