//! For each component and each two of its modes, the next move of a shortest way from the one to the other.
#![tactic(auto)]

mod code;
mod filling;
mod keeping;
mod leaving;
mod near;
mod tables;
mod ways;

pub use code::CellRef;
pub use tables::Tables;
