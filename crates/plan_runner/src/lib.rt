//! Whole plans, and the ways back.
#![tactic(auto)]

mod goal_back;
mod plans;
mod step;
mod walked;

pub use plans::{route_of, way_back, whole_plan};
