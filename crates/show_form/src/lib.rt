//! The form `show`: it reads a model, and prints it at the line `script`.
#![tactic(auto)]

mod laws;
mod show;

pub use laws::models_are_shown;
pub use show::{Show, ShowMachine, open_show};
