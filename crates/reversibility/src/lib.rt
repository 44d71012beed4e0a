//! Which modes have a way back: for each component the modes that open moves join both ways.
#![tactic(auto)]

mod around;
mod classes;
mod level;
mod open;
mod paths;
mod taking;

pub use classes::Classes;
pub use open::is_inside;
pub use paths::Paths;
