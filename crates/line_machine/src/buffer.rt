//! A line buffer: bytes that came and are not yet given out, cut into lines one at a time. A scan mark makes each byte looked at
//! once, however small the pieces are.
ghost use Rattle.std.specs.Prelude.{◌≡◌, ◌==◌, position, ◌+◌, ◌-◌, ◌<◌, ◌≤◌, ℕ, List, [], ◌++◌, length, take, drop, vec_len, vec_capacity, IfSome, IfNone, IfOk, IfErr, IsTrue, OnErr, IsErrOf};
ghost use Rattle.std.specs.Io.KnownBytes.{prepend_known, IsAtEnd};
ghost use Rattle.titan_wire.specs.Wire.{Rose};
ghost use Rattle.line_machine.specs.Lines.{HasNoLf, HasLine};
ghost use Rattle.line_machine.specs.declared.buffer.TheConstants.{TAKE};
ghost use Rattle.line_machine.specs.declared.machine.TheConstants.{LINE_ROOM};

use crate::intake::Intake;
use crate::machine::LINE_ROOM;
use std::alloc::{AllocError, Global};
use std::marker::Model;
use titan_wire::{Failed, Sink, append_within};

/// Bytes that are asked of a source at a time.
pub const TAKE: usize = 4096;

/// Why no bytes came.
#[derive(Clone, Copy, Debug, PartialEq, Eq)]
pub enum FillStop {
    Fault,
    Memory,
}

/// What stands at the front of the bytes.
#[derive(Clone, Copy, Debug, PartialEq, Eq)]
pub enum Found {
    /// A whole line, of so many bytes before its LF.
    Line(usize),
    /// More bytes than the limit, and no LF.
    Long,
    /// All that is left of the input, and no LF.
    Last,
}

/// Where the first LF stands.
pub fn lf_place(bytes: &[u8]) -> Option<usize>
    ensures place { result ≡ position (λ b. b == 10) bytes.now }
    ensures within { IfSome result (λ k. k < length bytes.now) }
{
    bytes.iter().position(|b| *b == b'\n')
}

/// Lets the first bytes go, moves the others to the front of the memory, and keeps the memory.
fn compact(bytes: &mut Vec<u8>, count: usize)
    requires { count ≤ vec_len bytes.old }
    ensures items { bytes.new.items ≡ drop count bytes.old.items }
    ensures memory { vec_capacity bytes.new ≡ vec_capacity bytes.old }
{
    if count == 0 {
        return;
    }
    let len = bytes.len() - count;
    bytes.rotate_left(count);
    bytes.truncate(len);
}

/// Bytes that came and are not yet given out as lines.
#[derive(Drop)]
pub struct LineBuffer {
    bytes: Vec<u8>,
    start: usize,
    scanned: usize,
}

impl Model for LineBuffer {
    ghost Value = { List ℕ };

    ghost view = { λ b. drop b.start b.bytes.items };

    ghost invariant = { λ b. (b.start + b.scanned ≤ vec_len b.bytes) × HasNoLf (take b.scanned (drop b.start b.bytes.items)) × (LINE_ROOM + TAKE ≤ vec_capacity b.bytes) };
}

impl LineBuffer {
    ghost use Rattle.line_machine.specs.Found.{Fills, Came, IsOver, IsFound, IsShort};

    /// No bytes, and room for a line of `LINE_ROOM` bytes with all that may come behind it at a time. The error is out of memory.
    pub fn with_room(alloc: Global) -> Result<LineBuffer, AllocError>
        ensures { IfOk result (λ b. b ≡ []) }
    {
        Ok(LineBuffer {
            bytes: Vec::with_capacity(alloc, LINE_ROOM + TAKE)?,
            start: 0,
            scanned: 0,
        })
    }

    /// The number of bytes.
    pub fn len(&self) -> usize
        ensures { result ≡ length self.now }
    {
        self.bytes.len() - self.start
    }

    /// The length of the first line without its LF, if it is whole. Each byte is looked at once.
    pub fn first_line(&mut self) -> Option<usize>
        ensures same { self.new ≡ self.old }
        ensures none { IfNone result (HasNoLf self.old) }
        ensures some { IfSome result (HasLine self.old) }
    {
        match lf_place(&self.bytes[self.start + self.scanned..]) {
            Some(len) => {
                self.scanned += len;
                Some(self.scanned)
            }
            None => {
                self.scanned = self.bytes.len() - self.start;
                None
            }
        }
    }

    /// Whether an empty line stands first.
    pub fn begins_empty(&self) -> bool
        ensures { IsTrue result → HasLine self.now 0 }
    {
        match self.bytes.get(self.start) {
            Some(byte) => *byte == b'\n',
            None => false,
        }
    }

    /// The first bytes.
    pub fn front(&self, len: usize) -> &[u8]
        requires { len ≤ length self.now }
        ensures { result.now ≡ take len self.now }
    {
        &self.bytes[self.start..self.start + len]
    }

    /// Lets the first line go, which has so many bytes before its LF.
    pub fn drop_line(&mut self, len: usize)
        requires { len < length self.old }
        ensures { self.new ≡ drop (len + 1) self.old }
    {
        self.start = self.start + len + 1;
        self.scanned = 0;
    }

    /// Asks the source once for more bytes, and answers how many came. 0 is the end.
    fn fill<S, K: Sink, I: Intake<S, K>>(
        &mut self,
        source: &mut S,
        sink: &K,
    ) -> Result<usize, FillStop>
        requires no_line { HasNoLf self.old }
        ensures fills { Fills (K.written sink.now) self.old self.new (I.left source.old)
            (I.left source.new) (I.calls source.old) (I.calls source.new) result }
        ensures end { IfOk result (λ n. n ≡ 0 → IsAtEnd (I.left source.new)) }
        ensures quiet { ¬ (IsErrOf result FillStop.Fault) →
            I.faults source.new ≡ I.faults source.old }
        ensures fault { IsErrOf result FillStop.Fault →
            Rose (I.faults source.old) (I.faults source.new) }
        ensures steady { length self.old ≤ LINE_ROOM → ¬ (IsErrOf result FillStop.Memory) }
    {
        compact(&mut self.bytes, self.start);
        self.start = 0;
        if self.bytes.reserve(TAKE).is_err() {
            return Err(FillStop::Memory);
        }
        let mut buf = [0u8; TAKE];
        match I::take(source, sink, &mut buf) {
            Ok(count) => {
                append_within(&mut self.bytes, &buf[..count]);
                Ok(count)
            }
            Err(Failed) => Err(FillStop::Fault),
        }
    }

    /// Asks the source until there is a whole line, or more bytes than the limit, or the input ends.
    #[tactic(auto, using(crate::proofs::Calls::came_none, crate::proofs::Calls::came_on, crate::proofs::Calls::came_last))]
    pub fn next_line<S, K: Sink, I: Intake<S, K>>(
        &mut self,
        source: &mut S,
        sink: &K,
        limit: usize,
    ) -> Result<Found, FillStop>
        ensures came { Came (IsOver result) limit (K.written sink.now) self.old self.new
            (I.left source.old) (I.left source.new) (I.calls source.old) (I.calls source.new) }
        ensures found { IfOk result (λ found. IsFound found limit self.new (I.left source.new)) }
        ensures waits { OnErr result (IsShort limit self.new) }
        ensures quiet { ¬ (IsErrOf result FillStop.Fault) →
            I.faults source.new ≡ I.faults source.old }
        ensures fault { IsErrOf result FillStop.Fault →
            Rose (I.faults source.old) (I.faults source.new) }
        ensures steady { limit ≤ LINE_ROOM → ¬ (IsErrOf result FillStop.Memory) }
    {
        'asks: loop {
            match self.first_line() {
                Some(len) => return Ok(Found::Line(len)),
                None => {}
            }
            if self.len() > limit {
                return Ok(Found::Long);
            }
            let count = match self.fill::<S, K, I>(source, sink) {
                Ok(count) => count,
                Err(stop) => return Err(stop),
            };
            if count == 0 {
                return Ok(Found::Last);
            }
        }
    }
}
