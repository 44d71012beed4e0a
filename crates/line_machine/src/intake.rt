//! How bytes are asked for. A source is asked beside the sink, so that the order of reads and writes can be said: a caller that
//! wants to see it gives an intake that notes, at each call, what the sink has got.
ghost use Rattle.std.specs.Prelude.{◌≡◌, ℕ, ◌<◌, ◌≤◌, ◌∷◌, [], List, length, take, Option, None, IfOk, OnErr};
ghost use Rattle.std.specs.Io.KnownBytes.{prepend_known, IsAtEnd};
ghost use Rattle.titan_wire.specs.Wire.{HasCause};
ghost use Rattle.line_machine.specs.Call.{Call, call_of, Notes};

use titan_wire::{Failed, Sink, Source};

/// A way to ask a source for bytes beside a sink.
pub trait Intake<S, K: Sink> {
    /// The bytes still to come, where they are known.
    ghost left: { S → Option (List ℕ) };

    /// How often the source has failed.
    ghost faults: { S → ℕ };

    /// The calls so far, where they are known; an intake may lose them.
    ghost calls: { S → Option (List Call) };

    /// Moves some bytes to the front of the buffer, and answers how many. 0 is the end.
    fn take(source: &mut S, sink: &K, buf: &mut [u8]) -> Result<usize, Failed>
        requires { 0 < length buf.old }
        ensures count { IfOk result (λ n. n ≤ length buf.old) }
        ensures moved { IfOk result (λ n.
            left source.old ≡ prepend_known (take n buf.new) (left source.new)) }
        ensures end { IfOk result (λ n. n ≡ 0 → IsAtEnd (left source.new)) }
        ensures err { OnErr result (left source.new ≡ left source.old) }
        ensures cause { HasCause (faults source.old) (faults source.new) result }
        ensures noted { Notes (calls source.old) (calls source.new)
            (call_of result buf.new (K.written sink.now) ∷ []) };
}

/// Any source by itself. The calls aren't known.
pub struct Unwatched;

impl<S: Source, K: Sink> Intake<S, K> for Unwatched {
    ghost left = { S.left };

    ghost faults = { S.faults };

    ghost calls = { λ _. None };

    fn take(source: &mut S, _sink: &K, buf: &mut [u8]) -> Result<usize, Failed> {
        source.take(buf)
    }
}
