//! The lines that are printed: reports of ticks and their proofs, refusals, and what was compiled of a model. A caller gets
//! exactly the texts of the definitions, by the names of the model that is passed, and reads lines of a trace back.
#![tactic(auto)]

mod commands;
mod compiled;
mod json;
pub mod json_laws;
mod limits;
pub mod line_laws;
mod members;
mod names;
mod proof_lines;
mod read_parts;
mod read_report;
mod refusal;
mod report;
mod report_ref;
mod target;
mod trace_line;
mod window;
mod words;

pub use commands::{command_of, command_places};
pub use compiled::show_lines;
pub use json::json_of;
pub use limits::{MAX_TRACE_LINE, limit_is_fixed};
pub use names::push_field;
pub use proof_lines::{route_lines, world_line};
pub use read_parts::read_count;
pub use refusal::{REFUSAL_ROOM, bare_refusal_to, refusal_line};
pub use report::{line_of, report_room, report_to};
pub use report_ref::{ReportRef, ShownRef};
pub use target::target_lines;
pub use trace_line::{LineFault, TraceLine, read_line};
pub use window::{WindowReport, window_line, window_to};
