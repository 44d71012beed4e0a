//! The form `program`: behind an accepted model stands a control program, and behind that the events of a script. The program sets and
//! clears the executive's goals; for each tick the text has its report, and a line where the program has ended.
#![tactic(auto)]

mod item;
mod laws;
mod programmed;
mod running;
mod sequenced;
mod told;

pub use item::{ItemPlace, ItemRef, ProgramItem};
pub use laws::{programs_are_told, programs_are_traced, programs_are_written, put_in};
pub use programmed::{ProgramMachine, Programmed, open_program};
