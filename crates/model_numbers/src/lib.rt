//! The names of a model as numbers and back, and the report of a tick as numbers, for callers that want no text.
#![tactic(auto)]

mod kind;
mod laws;
mod listed;
mod modes;
mod names;
mod report_numbers;

pub use kind::Kind;
pub use laws::{names_are_numbers, names_are_read_alike, numbers_fit, numbers_print};
pub use modes::{NO_MODE, write_modes};
pub use names::{count, name, number};
pub use report_numbers::{ReplyKind, ReportNumbers, Tells, numbers};
