//! A source and a sink that number their calls together, so that the order of reads and writes can be seen.
ghost use Rattle.std.specs.Prelude.{◌≡◌, ◌+◌, ◌^◌, ◌<◌, ◌≤◌, [], length, take, None, Some, IfOk, OnErr, vec_len};
ghost use Rattle.std.specs.Io.KnownBytes.{prepend_known, append_known, IsAtEnd};
ghost use Rattle.titan_wire.specs.Wire.{HasCause, HasRoom, less_space};

use std::alloc::Global;
use std::cell::Cell;
use std::rc::Rc;
use titan_wire::{Failed, Sink, Source};

/// The number of the last call, which a source and a sink share.
pub type Calls = Rc<Cell<u64>>;

/// The numbers of the calls of one of them.
#[derive(Drop)]
struct Numbers {
    calls: Calls,
    list: Vec<u64>,
    faults: u64,
    ghost fits: { faults < 2 ^ 64 },
}

impl Numbers {
    fn new(alloc: Global, calls: Calls) -> Numbers {
        Numbers {
            calls,
            list: Vec::new(alloc),
            faults: 0,
        }
    }

    /// Raises the number, which stops at the greatest, and keeps it. A list that can't grow is a fault.
    fn call(&mut self) -> Result<(), Failed>
        ensures { HasCause self.old.faults self.new.faults result }
    {
        let number = self.calls.get().saturating_add(1);
        self.calls.set(number);
        if self.list.push(number).is_err() {
            self.faults = self.faults.saturating_add(1);
            return Err(Failed);
        }
        Ok(())
    }
}

/// A source that gives one line a call.
#[derive(Drop)]
pub struct NumberedSource {
    numbers: Numbers,
    bytes: Vec<u8>,
    at: usize,
    ghost in_range: { at ≤ vec_len bytes },
}

impl NumberedSource {
    pub fn new(alloc: Global, calls: Calls, bytes: Vec<u8>) -> NumberedSource {
        NumberedSource {
            numbers: Numbers::new(alloc, calls),
            bytes,
            at: 0,
        }
    }

    /// The numbers of its calls.
    pub fn numbers(&self) -> &[u64] {
        &self.numbers.list
    }
}

/// The length of the first line with its LF, or of all bytes where there is none.
fn line_len(bytes: &[u8]) -> usize
    ensures { result ≤ length bytes.now }
{
    match bytes.iter().position(|b| *b == b'\n') {
        Some(len) => len + 1,
        None => bytes.len(),
    }
}

impl Source for NumberedSource {
    ghost left = { λ _. None };

    ghost faults = { λ s. s.numbers.faults };

    ghost fits = { λ s. s.numbers.fits };

    fn take(&mut self, buf: &mut [u8]) -> Result<usize, Failed> {
        self.numbers.call()?;
        let rest = &self.bytes[self.at..];
        let count = line_len(rest).min(buf.len());
        buf[..count].copy_from_slice(&rest[..count]);
        self.at += count;
        Ok(count)
    }
}

/// A sink that takes each piece.
#[derive(Drop)]
pub struct NumberedSink {
    numbers: Numbers,
}

impl NumberedSink {
    pub fn new(alloc: Global, calls: Calls) -> NumberedSink {
        NumberedSink {
            numbers: Numbers::new(alloc, calls),
        }
    }

    /// The numbers of its calls.
    pub fn numbers(&self) -> &[u64] {
        &self.numbers.list
    }
}

impl Sink for NumberedSink {
    ghost written = { λ _. None };

    ghost space = { λ _. None };

    ghost faults = { λ s. s.numbers.faults };

    ghost fits = { λ s. s.numbers.fits };

    fn put(&mut self, piece: &[u8]) -> Result<usize, Failed> {
        self.numbers.call()?;
        Ok(piece.len())
    }
}
