//! Control programs: what a program is, and its lines read one by one. Lines are read to the end of a program exactly where they are that
//! program, as it is written, and each other line has its least code.
#![tactic(auto)]

mod block;
mod codes;
mod laws;
mod limits;
mod line;
mod part;
mod place;
mod program_end;
mod reader;
mod words;

pub use laws::{blocks_by_lines, forms, lines_are_one, programs_are_one, programs_are_read};
pub use limits::{MAX_BLOCKS, MAX_LINES, MAX_ROUNDS, limits_are_fixed};
pub use part::Part;
pub use program_end::ProgramEnd;
pub use reader::ProgramReader;
