//! Checks a printed tick by the rules and guards of the model alone: the estimate's cost and world, the command's step, the
//! printed plan and its way back, and the answer. No prime implicant, class or table is used.
#![tactic(auto)]

mod answer;
mod checker;
mod cost;
mod guards;
mod judged;
mod known;
mod laws;
mod lines;
pub mod reasons;
mod route;
mod run;
mod states;
mod step;
mod taken;
mod tick;
mod verdict;
mod world;

pub use checker::Checker;
pub use laws::verdicts_are_one;
pub use verdict::Verdict;
