//! The form `check`: it reads a model, a script and a printed trace, and tells the first tick whose lines don't pass the checker's
//! nine tests. Its text is that of how the input is judged: a Yes to every tick, the first No, or the first line that is refused.
#![tactic(auto)]

mod check_script;
mod check_trace;
mod checking;
mod item;
mod laws;
mod tick_lines;
mod verdicts;

pub use checking::{CheckMachine, Checking, open_check};
pub use item::CheckItem;
pub use laws::checks_are_judged;
