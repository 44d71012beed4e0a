//! The document of a seed: a model of chains and a script with goals and faults, all made of drawn numbers. A caller gets
//! exactly the bytes of the definition.
#![tactic(auto)]

mod chains;
mod draws;
pub mod laws;
mod plant;
mod script;
mod transitions;
mod whole;

pub use whole::trial;
