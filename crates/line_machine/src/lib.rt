//! A machine is a form of words: what it prints for each line and for the end of the input; the driver runs any machine over a
//! source and a sink. A caller gets the machine's whole text for the input, or after a fault, or out of memory, a prefix of it,
//! and whatever the bytes so far decide has been written before more are asked for.
#![tactic(auto)]

mod buffer;
mod driver;
mod intake;
mod laws;
mod line;
mod machine;
mod opened;
mod send;

pub use buffer::lf_place;
pub use byte_buffer::Out;
pub use driver::{OUT_ROOM, drive};
pub use intake::{Intake, Unwatched};
pub use laws::sure_text_laws;
pub use line::length_code;
pub use machine::{End, LINE_ROOM, LONG_LINE, MAX_LINES, Machine, TOO_MANY_LINES};
pub use opened::drive_opened;
pub use send::Cut;
