//! The form `run`: behind an accepted model the events of a script are made, line by line, and each tick is printed. Its text is
//! the fixed trace of the input, in which every reply is good.
#![tactic(auto)]

mod counts;
mod laws;
mod notation;
mod proof;
mod run;
mod script;
mod told;

pub use laws::{documents_are_one, runs_are_told, runs_are_traced};
pub use notation::Notation;
pub use run::{OpensScript, RunAs, RunMachine, open_run};
pub use script::Script;
