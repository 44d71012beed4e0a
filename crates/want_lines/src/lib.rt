//! Lines that ask for target states: their grammar, and what each asks for. A line gives exactly its request, or the least code
//! that applies to it.
#![tactic(auto)]

mod laws;
mod request;
mod want_line;
mod words;

pub use laws::requests_are_one;
pub use request::Request;
pub use want_line::read_request;
