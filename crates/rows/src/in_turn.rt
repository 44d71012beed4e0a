//! Whether each tick's line goes out before the next line is asked for.
use crate::finding::Finding;
use crate::numbered::{Calls, NumberedSink, NumberedSource};
use crate::run::words_of;
use std::alloc::Global;
use std::cell::Cell;
use std::io;
use std::rc::Rc;
use titan_top::{Status, titan};

/// Whether each line `tick` has a put right behind the call that brought it, and nothing else has one.
fn are_puts_behind_ticks(input: &[u8], takes: &[u64], puts: &[u64]) -> bool {
    let lines = input.split(|byte| *byte == b'\n');
    let mut left = puts;
    for (line, take) in lines.zip(takes) {
        if line == b"tick".as_slice() {
            match left {
                [put, rest @ ..] if *put == take.saturating_add(1) => left = rest,
                _ => return false,
            }
        }
    }
    left.is_empty()
}

/// Whether the source was asked once for each line of the input, which ends with LF, and once for its end; and the puts are in turn.
fn are_in_turn(input: &[u8], takes: &[u64], puts: &[u64]) -> bool {
    let lines = input.iter().filter(|byte| **byte == b'\n').count();
    takes.len() == lines.saturating_add(1) && are_puts_behind_ticks(input, takes, puts)
}

/// Runs the program over a source that gives one line a call: each put comes right behind the take of its tick.
pub fn in_turn(alloc: Global, words: &str, input: &[u8], status: Status) -> io::Result<Finding> {
    let words = words_of(alloc, words)?;
    let calls: Calls = Rc::new(alloc, Cell::new(0u64))?;
    let bytes = Vec::from_slice(alloc, input)?;
    let mut source = NumberedSource::new(alloc, calls.clone()?, bytes);
    let mut sink = NumberedSink::new(alloc, calls);
    let ended = titan(alloc, &words, &mut source, &mut sink);
    if ended != status {
        return Ok(Finding::Ended(ended));
    }
    if are_in_turn(input, source.numbers(), sink.numbers()) {
        Ok(Finding::Right)
    } else {
        Ok(Finding::OutOfTurn)
    }
}
