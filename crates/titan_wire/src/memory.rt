//! Sources and sinks in memory.

ghost use Rattle.std.specs.Prelude.{◌≡◌, ◌+◌, ◌-◌, ◌^◌, ◌<◌, ◌≤◌, ◌↔◌, ◌⊎◌, min, [], ◌++◌, length, take, drop, Some, None, vec_len, vec_capacity, IsErr, IsTrue, IfOk, OnErr, IfSome, Contains};
ghost use Rattle.std.specs.Io.KnownBytes.{prepend_known, append_known, IsAtEnd};
ghost use Rattle.titan_wire.specs.Wire.{HasCause, counted, faults_after};

use crate::wire::{Failed, Sink, Source};
use std::alloc::{AllocError, Global};

/// Copies as much as fits from the front of the bytes to that of the buffer, and answers how much.
pub fn copy_front(bytes: &[u8], buf: &mut [u8]) -> usize
    ensures count { result ≡ min (length bytes.now) (length buf.old) }
    ensures moved { take result buf.new ≡ take result bytes.now }
    ensures rest { drop result buf.new ≡ drop result buf.old }
{
    let count = bytes.len().min(buf.len());
    buf[..count].copy_from_slice(&bytes[..count]);
    count
}

/// Lets the first bytes go, and moves the others to the front of the memory.
pub fn drop_front(bytes: &mut Vec<u8>, count: usize)
    requires { count ≤ vec_len bytes.old }
    ensures { bytes.new.items ≡ drop count bytes.old.items }
{
    let len = bytes.len() - count;
    bytes.as_mut_slice().rotate_left(count);
    bytes.truncate(len);
}

/// Appends the piece to a vector that has room for it and does not grow.
pub fn append_within(bytes: &mut Vec<u8>, piece: &[u8])
    requires { vec_len bytes.old + length piece.now ≤ vec_capacity bytes.old }
    ensures items { bytes.new.items ≡ bytes.old.items ++ piece.now }
    ensures memory { vec_capacity bytes.new ≡ vec_capacity bytes.old }
{
    for byte in piece {
        bytes.push_reserved(*byte);
    }
}

/// The calls that a source or a sink over memory has had: how many, which fail, and how many did.
#[derive(Debug, Drop)]
pub struct Calls {
    made: u64,
    failing: Vec<u64>,
    faults: u64,
    ghost fits: { faults < 2 ^ 64 },
}

impl Calls {
    /// No call yet. `failing` has the numbers, from 1, of the calls that fail.
    fn none(failing: Vec<u64>) -> Calls
        ensures made { result.made ≡ 0 }
        ensures failing { result.failing ≡ failing }
        ensures faults { result.faults ≡ 0 }
    {
        Calls {
            made: 0,
            failing,
            faults: 0,
        }
    }

    /// Counts a call, and answers whether its number is listed.
    fn count(&mut self) -> bool
        ensures made { self.new.made ≡ counted self.old.made }
        ensures listed { IsTrue result ↔ Contains self.old.failing.items self.new.made }
        ensures failing { self.new.failing ≡ self.old.failing }
        ensures faults { self.new.faults ≡ self.old.faults }
    {
        self.made = self.made.saturating_add(1);
        self.failing.contains(&self.made)
    }

    /// Counts a fault.
    fn fail(&mut self)
        ensures made { self.new.made ≡ self.old.made }
        ensures failing { self.new.failing ≡ self.old.failing }
        ensures faults { self.new.faults ≡ counted self.old.faults }
    {
        self.faults = self.faults.saturating_add(1);
    }
}

/// A source over memory. It fails at the calls whose numbers are listed, and else moves as much as
/// fits.
#[derive(Debug, Drop)]
pub struct MemorySource {
    bytes: Vec<u8>,
    at: usize,
    calls: Calls,
    ghost in_range: { at ≤ vec_len bytes },
}

impl MemorySource {
    ghost use Rattle.titan_wire.specs.Memory.{source_calls};

    /// `failing` has the numbers, from 1, of the calls that fail.
    pub fn new(bytes: Vec<u8>, failing: Vec<u64>) -> MemorySource
        ensures left { ⟦<MemorySource as Source>⟧.left result ≡ Some bytes.items }
        ensures faults { ⟦<MemorySource as Source>⟧.faults result ≡ 0 }
        ensures calls { (source_calls result).made ≡ 0 }
        ensures failing { (source_calls result).failing.items ≡ failing.items }
    {
        MemorySource {
            bytes,
            at: 0,
            calls: Calls::none(failing),
        }
    }
}

impl Source for MemorySource {
    ghost use Rattle.titan_wire.specs.Memory.{source_left, source_calls};

    ghost left = { source_left };

    ghost faults = { λ s. (source_calls s).faults };

    ghost fits = { λ s. s.calls.fits };

    #[tactic(auto, using(crate::proofs::Bytes::moved_front))]
    fn take(&mut self, buf: &mut [u8]) -> Result<usize, Failed>
        requires { 0 < length buf.old }
        ensures count { IfOk result (λ n. n ≤ length buf.old) }
        ensures moved { IfOk result (λ n.
            source_left self.old ≡ prepend_known (take n buf.new) (source_left self.new)) }
        ensures end { IfOk result (λ n. n ≡ 0 → IsAtEnd (source_left self.old)) }
        ensures empty { IfOk result (λ n. source_left self.old ≡ Some [] → n ≡ 0) }
        ensures err { OnErr result (source_left self.new ≡ source_left self.old) }
        ensures cause { HasCause
            (source_calls self.old).faults (source_calls self.new).faults result }

        // A call fails exactly where its number is listed, and else moves as much as fits.
        ensures calls { (source_calls self.new).made ≡ counted (source_calls self.old).made }
        ensures failing { (source_calls self.new).failing ≡ (source_calls self.old).failing }
        ensures fails { IsErr result
            ↔ Contains (source_calls self.old).failing.items (source_calls self.new).made }
        ensures faults { (source_calls self.new).faults
            ≡ faults_after (source_calls self.old).faults result }
        ensures whole { IfSome (source_left self.old) (λ bytes. IfOk result (λ n.
            n ≡ min (length bytes) (length buf.old))) }
    {
        if self.calls.count() {
            self.calls.fail();
            return Err(Failed);
        }
        let count = copy_front(&self.bytes[self.at..], buf);
        self.at += count;
        Ok(count)
    }
}

/// A sink over memory. It fails at the calls whose numbers are listed and where a piece would pass
/// its capacity, and else takes the whole piece.
#[derive(Debug, Drop)]
pub struct MemorySink {
    bytes: Vec<u8>,
    capacity: usize,
    calls: Calls,
    ghost room: { capacity ≤ vec_capacity bytes },
    ghost within: { vec_len bytes ≤ capacity },
}

impl MemorySink {
    ghost use Rattle.titan_wire.specs.Memory.{sink_calls, sink_capacity, sink_memory};

    /// Takes the memory for `capacity` bytes. `failing` has the numbers, from 1, of the calls that
    /// fail.
    pub fn new(alloc: Global, capacity: usize, failing: Vec<u64>) -> Result<MemorySink, AllocError>
        ensures written { IfOk result (λ s. ⟦<MemorySink as Sink>⟧.written s ≡ Some []) }
        ensures space { IfOk result (λ s. ⟦<MemorySink as Sink>⟧.space s ≡ None) }
        ensures faults { IfOk result (λ s. ⟦<MemorySink as Sink>⟧.faults s ≡ 0) }
        ensures calls { IfOk result (λ s. (sink_calls s).made ≡ 0) }
        ensures failing { IfOk result (λ s. (sink_calls s).failing.items ≡ failing.items) }
        ensures capacity { IfOk result (λ s. sink_capacity s ≡ capacity) }
        ensures memory { IfOk result (λ s. sink_memory s ≡ capacity) }
    {
        Ok(MemorySink {
            bytes: Vec::with_capacity(alloc, capacity)?,
            capacity,
            calls: Calls::none(failing),
        })
    }

    /// What was written.
    pub fn bytes(&self) -> &[u8]
        ensures { ⟦<MemorySink as Sink>⟧.written self.now ≡ Some result.now }
    {
        self.bytes.as_slice()
    }
}

impl Sink for MemorySink {
    ghost use Rattle.titan_wire.specs.Memory.{sink_written, sink_calls, sink_capacity, sink_memory};

    ghost written = { sink_written };

    ghost space = { λ _. None };

    ghost faults = { λ s. (sink_calls s).faults };

    ghost fits = { λ s. s.calls.fits };

    fn put(&mut self, piece: &[u8]) -> Result<usize, Failed>
        requires { 0 < length piece.now }
        ensures count { IfOk result (λ n. (0 < n) × (n ≤ length piece.now)) }
        ensures sent { IfOk result (λ n.
            sink_written self.new ≡ append_known (sink_written self.old) (take n piece.now)) }
        ensures err { OnErr result (sink_written self.new ≡ sink_written self.old) }
        ensures cause { HasCause (sink_calls self.old).faults (sink_calls self.new).faults result }

        // A call fails exactly where its number is listed or it would pass the capacity, and else
        // sends the whole piece.
        ensures calls { (sink_calls self.new).made ≡ counted (sink_calls self.old).made }
        ensures failing { (sink_calls self.new).failing ≡ (sink_calls self.old).failing }
        ensures fails { IfSome (sink_written self.old) (λ out.
            IsErr result ↔ (Contains (sink_calls self.old).failing.items (sink_calls self.new).made
            ⊎ (sink_capacity self.old < length out + length piece.now))) }
        ensures faults { (sink_calls self.new).faults
            ≡ faults_after (sink_calls self.old).faults result }
        ensures whole { IfOk result (λ n. n ≡ length piece.now) }

        // It makes no growth.
        ensures capacity { sink_capacity self.new ≡ sink_capacity self.old }
        ensures memory { sink_memory self.new ≡ sink_memory self.old }
    {
        if self.calls.count() || piece.len() > self.capacity - self.bytes.len() {
            self.calls.fail();
            return Err(Failed);
        }
        append_within(&mut self.bytes, piece);
        Ok(piece.len())
    }
}
