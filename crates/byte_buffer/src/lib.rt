//! A buffer of bytes that its caller keeps: what is to be printed is appended to it, and where it has room that takes no memory.
#![tactic(auto)]

mod out;

pub use out::Out;
