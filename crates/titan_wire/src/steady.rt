//! Sources and sinks that never fail.

ghost use Rattle.std.specs.Prelude.{◌≡◌, ◌+◌, ◌-◌, ◌<◌, ◌≤◌, min, [], length, take, Some, vec_len, vec_capacity, IfOk, IsOkAnd, OnErr, IfSome};
ghost use Rattle.std.proofs.Common.{lit<};
ghost use Rattle.std.specs.Io.KnownBytes.{prepend_known, append_known, IsAtEnd};
ghost use Rattle.titan_wire.specs.Wire.{HasCause, HasRoom, less_space};

use crate::memory::{append_within, copy_front};
use crate::wire::{Failed, Sink, Source};
use std::alloc::{AllocError, Global};

/// A source over memory that never fails.
#[derive(Debug, Drop)]
pub struct SteadySource {
    bytes: Vec<u8>,
    at: usize,
    ghost in_range: { at ≤ vec_len bytes },
}

impl SteadySource {
    /// A source that has made no call.
    pub fn new(bytes: Vec<u8>) -> SteadySource
        ensures { ⟦<SteadySource as Source>⟧.left result ≡ Some bytes.items }
    {
        SteadySource { bytes, at: 0 }
    }
}

impl Source for SteadySource {
    ghost use Rattle.titan_wire.specs.Steady.{steady_left};

    ghost left = { steady_left };

    ghost faults = { λ _. 0 };

    ghost fits = { λ _. lit< tt };

    #[tactic(auto, using(crate::proofs::Bytes::moved_front))]
    fn take(&mut self, buf: &mut [u8]) -> Result<usize, Failed>
        requires { 0 < length buf.old }
        ensures count { IfOk result (λ n. n ≤ length buf.old) }
        ensures moved { IfOk result (λ n.
            steady_left self.old ≡ prepend_known (take n buf.new) (steady_left self.new)) }
        ensures end { IfOk result (λ n. n ≡ 0 → IsAtEnd (steady_left self.old)) }
        ensures empty { IfOk result (λ n. steady_left self.old ≡ Some [] → n ≡ 0) }
        ensures err { OnErr result (steady_left self.new ≡ steady_left self.old) }
        ensures cause { HasCause 0 0 result }

        // It never fails, and moves as much as fits.
        ensures whole { IfSome (steady_left self.old) (λ bytes.
            IsOkAnd result (λ n. n ≡ min (length bytes) (length buf.old))) }
    {
        let count = copy_front(&self.bytes[self.at..], buf);
        self.at += count;
        Ok(count)
    }
}

/// A sink over memory that never fails, and tells how much it still takes.
#[derive(Debug, Drop)]
pub struct SteadySink {
    bytes: Vec<u8>,
    capacity: usize,
    ghost room: { capacity ≤ vec_capacity bytes },
    ghost within: { vec_len bytes ≤ capacity },
}

impl SteadySink {
    ghost use Rattle.titan_wire.specs.Steady.{steady_memory};

    /// Takes the memory for `capacity` bytes.
    pub fn new(alloc: Global, capacity: usize) -> Result<SteadySink, AllocError>
        ensures written { IfOk result (λ s. ⟦<SteadySink as Sink>⟧.written s ≡ Some []) }
        ensures space { IfOk result (λ s. ⟦<SteadySink as Sink>⟧.space s ≡ Some capacity) }
        ensures memory { IfOk result (λ s. steady_memory s ≡ capacity) }
    {
        Ok(SteadySink {
            bytes: Vec::with_capacity(alloc, capacity)?,
            capacity,
        })
    }

    /// What was written.
    pub fn bytes(&self) -> &[u8]
        ensures { ⟦<SteadySink as Sink>⟧.written self.now ≡ Some result.now }
    {
        self.bytes.as_slice()
    }
}

impl Sink for SteadySink {
    ghost use Rattle.titan_wire.specs.Steady.{steady_written, steady_space, steady_memory};

    ghost written = { steady_written };

    ghost space = { steady_space };

    ghost faults = { λ _. 0 };

    ghost fits = { λ _. lit< tt };

    fn put(&mut self, piece: &[u8]) -> Result<usize, Failed>
        requires nonempty { 0 < length piece.now }
        requires room { HasRoom (steady_space self.old) (length piece.now) }
        ensures count { IfOk result (λ n. (0 < n) × (n ≤ length piece.now)) }
        ensures sent { IfOk result (λ n.
            steady_written self.new ≡ append_known (steady_written self.old) (take n piece.now)) }
        ensures space { IfOk result (λ n.
            steady_space self.new ≡ less_space (steady_space self.old) n) }
        ensures err { OnErr result (steady_written self.new ≡ steady_written self.old) }
        ensures err_space { OnErr result (steady_space self.new ≡ steady_space self.old) }
        ensures cause { HasCause 0 0 result }

        // It never fails, sends the whole piece, and makes no growth.
        ensures whole { IsOkAnd result (λ n. n ≡ length piece.now) }
        ensures memory { steady_memory self.new ≡ steady_memory self.old }
    {
        append_within(&mut self.bytes, piece);
        Ok(piece.len())
    }
}
