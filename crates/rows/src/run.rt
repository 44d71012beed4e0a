//! Runs the top call over memory.
use crate::endless::EndlessSource;
use crate::pieces::PieceSource;
use std::alloc::{AllocError, Global};
use titan_top::{Status, titan};
use titan_wire::{MemorySink, MemorySource};

/// What the source and the sink of a row do.
#[derive(Clone, Copy, Debug)]
pub struct Ends {
    /// How many bytes the source gives a call.
    pub pieces: usize,
    /// The number, from 1, of the call of the source that fails; 0 is no call's number.
    pub take: u64,
    /// The same of the sink.
    pub put: u64,
    /// How many bytes the sink takes in all.
    pub room: usize,
}

impl Ends {
    /// Ends that never fail and, but for a very long text, neither run out of room.
    pub const STEADY: Ends = Ends {
        pieces: 512,
        take: 0,
        put: 0,
        room: 262_144,
    };
}

/// What is run, and the text that must come out.
#[derive(Clone, Copy, Debug)]
pub struct Case<'a> {
    pub words: &'a str,
    pub input: &'a [u8],
    pub ends: Ends,
    pub wanted: &'a [u8],
}

/// The words, which stand between blanks.
pub fn words_of(alloc: Global, words: &str) -> Result<Vec<String>, AllocError> {
    let mut list = Vec::new(alloc);
    for word in words.split_whitespace() {
        list.push(String::from_str(alloc, word)?)?;
    }
    Ok(list)
}

/// How the program ends for these words and this input, and what it writes.
pub fn run(
    alloc: Global,
    words: &str,
    input: &[u8],
    ends: Ends,
) -> Result<(Status, Vec<u8>), AllocError> {
    let words = words_of(alloc, words)?;
    let takes = Vec::from_slice(alloc, [ends.take].as_slice())?;
    let puts = Vec::from_slice(alloc, [ends.put].as_slice())?;
    let memory = MemorySource::new(Vec::from_slice(alloc, input)?, takes);
    let mut source = PieceSource::new(memory, ends.pieces);
    let mut sink = MemorySink::new(alloc, ends.room, puts)?;
    let status = titan(alloc, &words, &mut source, &mut sink);
    Ok((status, Vec::from_slice(alloc, sink.bytes())?))
}

/// The same for an input that is this byte, over and over.
pub fn run_endless(alloc: Global, words: &str, byte: u8) -> Result<(Status, Vec<u8>), AllocError> {
    let words = words_of(alloc, words)?;
    let mut source = EndlessSource::new(byte);
    let mut sink = MemorySink::new(alloc, Ends::STEADY.room, Vec::new(alloc))?;
    let status = titan(alloc, &words, &mut source, &mut sink);
    Ok((status, Vec::from_slice(alloc, sink.bytes())?))
}
