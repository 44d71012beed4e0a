//! Of every source and sink the layer above may rely on this: a call moves a front of the bytes
//! that are left or given, or it fails, only where its count of faults rose, and moves nothing.
//! A source whose bytes are known answers 0 exactly where none was left, and `put_all` stops short
//! of the whole piece only where the sink's count of faults rose.
#![tactic(auto)]

mod edge;
mod memory;
mod steady;
mod wire;

pub use edge::{ReaderSource, WriterSink};
pub use memory::{Calls, MemorySink, MemorySource, append_within, copy_front, drop_front};
pub use steady::{SteadySink, SteadySource};
pub use wire::{Failed, PutEnd, Sink, Source, put_all};
