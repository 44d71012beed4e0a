//! Text that waits to be taken: a queue of bytes, taken from its front.

ghost use Rattle.std.specs.Prelude.{◌≡◌, ◌≤◌, ◌⊎◌, ℕ, List, [], ◌++◌, length, take, drop, vec_len, OnOk, OnErr};

use std::alloc::{AllocError, Global};
use std::marker::Model;
use titan_wire::{copy_front, drop_front};

/// Bytes in the order in which they came. Those before `start` were taken.
#[derive(Drop)]
pub struct Pending {
    bytes: Vec<u8>,
    start: usize,
}

impl Model for Pending {
    ghost Value = { List ℕ };

    ghost view = { λ p. drop p.start p.bytes.items };

    ghost invariant = { λ p. p.start ≤ vec_len p.bytes };
}

impl Pending {
    /// Nothing waits.
    pub fn new(alloc: Global) -> Pending
        ensures { result ≡ [] }
    {
        Pending {
            bytes: Vec::new(alloc),
            start: 0,
        }
    }

    /// Moves the bytes to the front of the memory.
    fn compact(&mut self)
        ensures { self.new ≡ self.old }
    {
        if self.start > 0 {
            drop_front(&mut self.bytes, self.start);
            self.start = 0;
        }
    }

    /// Puts more behind them. Out of memory it puts nothing.
    pub fn push(&mut self, text: &[u8]) -> Result<(), AllocError>
        ensures pushed { OnOk result (self.new ≡ self.old ++ text.now) }
        ensures kept { OnErr result (self.new ≡ self.old) }
    {
        self.compact();
        self.bytes.extend_from_slice(text)?;
        Ok(())
    }

    /// Moves as many of the first bytes as fit to the front of the buffer, and answers how many.
    pub fn take(&mut self, out: &mut [u8]) -> usize
        ensures moved { self.old ≡ take result out.new ++ self.new }
        ensures rest { drop result out.new ≡ drop result out.old }
        ensures fits { result ≤ length out.old }
        ensures all { (result ≡ length out.old) ⊎ (self.new ≡ []) }
    {
        let count = copy_front(&self.bytes[self.start..], out);
        self.start += count;
        count
    }
}
