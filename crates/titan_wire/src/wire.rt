//! Sources of bytes and sinks of pieces, which count their faults.

ghost use Rattle.std.specs.Prelude.{◌≡◌, ℕ, ◌+◌, ◌-◌, ◌^◌, ◌<◌, ◌≤◌, List, [], length, take, Option, IfOk, OnErr, ◌⊎◌};
ghost use Rattle.std.specs.Io.KnownBytes.{prepend_known, append_known, IsAtEnd};
ghost use Rattle.titan_wire.specs.Wire.{Rose, HasCause, HasRoom, less_space, sent_of};

use thiserror::Error;

/// A read or a write failed.
#[derive(Clone, Copy, Debug, PartialEq, Eq, Error)]
#[error("a read or a write failed")]
pub struct Failed;

/// Where bytes come from.
pub trait Source {
    /// The bytes still to come, where the source tells them.
    ghost left: { Self → Option (List ℕ) };

    /// How often it has failed. At `u64::MAX` the count stays.
    ghost faults: { Self → ℕ };

    /// Moves some bytes to the front of the buffer, and answers how many. 0 is the end.
    /// `Failed` is a fault of what the bytes come from.
    fn take(&mut self, buf: &mut [u8]) -> Result<usize, Failed>
        requires { 0 < length buf.old }
        ensures count { IfOk result (λ n. n ≤ length buf.old) }
        ensures moved { IfOk result (λ n.
            left self.old ≡ prepend_known (take n buf.new) (left self.new)) }
        ensures end { IfOk result (λ n. n ≡ 0 → IsAtEnd (left self.old)) }
        ensures empty { IfOk result (λ n. left self.old ≡ Some [] → n ≡ 0) }
        ensures err { OnErr result (left self.new ≡ left self.old) }
        ensures cause { HasCause (faults self.old) (faults self.new) result };

    // The last value of a count of faults is `u64::MAX`.
    ghost fits: { (s : Self) → faults s < 2 ^ 64 };
}

/// Where bytes go.
pub trait Sink {
    /// The bytes that went out, where the sink tells them.
    ghost written: { Self → Option (List ℕ) };

    /// How many bytes still fit, where the sink tells it.
    ghost space: { Self → Option ℕ };

    /// How often it has failed. At `u64::MAX` the count stays.
    ghost faults: { Self → ℕ };

    /// Sends some bytes from the front of the piece, and answers how many.
    /// `Failed` is a fault of what the bytes go to.
    fn put(&mut self, piece: &[u8]) -> Result<usize, Failed>
        requires nonempty { 0 < length piece.now }
        requires room { HasRoom (space self.old) (length piece.now) }
        ensures count { IfOk result (λ n. (0 < n) × (n ≤ length piece.now)) }
        ensures sent { IfOk result (λ n.
            written self.new ≡ append_known (written self.old) (take n piece.now)) }
        ensures space { IfOk result (λ n. space self.new ≡ less_space (space self.old) n) }
        ensures err { OnErr result (written self.new ≡ written self.old) }
        ensures err_space { OnErr result (space self.new ≡ space self.old) }
        ensures cause { HasCause (faults self.old) (faults self.new) result };

    // The last value of a count of faults is `u64::MAX`.
    ghost fits: { (s : Self) → faults s < 2 ^ 64 };
}

/// How the sending of a whole piece ended.
#[derive(Clone, Copy, Debug, PartialEq, Eq)]
pub enum PutEnd {
    /// The whole piece went out.
    Done,
    /// A `put` failed after the first `sent` bytes of the piece had gone out.
    WriteFault { sent: usize },
}

/// Sends a whole piece, by one `put` after another, and stops at the first that fails.
#[tactic(auto, using(crate::proofs::Bytes::sent_more, crate::proofs::Bytes::space_more, crate::proofs::Bytes::room_left))]
pub fn put_all<K: Sink>(sink: &mut K, piece: &[u8]) -> PutEnd
    requires { HasRoom (K.space sink.old) (length piece.now) }
    ensures sent { K.written sink.new
        ≡ append_known (K.written sink.old) (take (sent_of result piece.now) piece.now) }
    ensures count { sent_of result piece.now ≤ length piece.now }
    ensures space { K.space sink.new ≡ less_space (K.space sink.old) (sent_of result piece.now) }
    ensures later { K.faults sink.old ≤ K.faults sink.new }

    // The whole piece goes out only where no `put` failed. Short of it the call ends only by a fault; an empty piece makes no `put`.
    ensures quiet { result ≡ PutEnd.Done → K.faults sink.new ≡ K.faults sink.old }
    ensures fault { (result ≡ PutEnd.Done) ⊎ Rose (K.faults sink.old) (K.faults sink.new) }
    ensures short { (result ≡ PutEnd.Done) ⊎ (sent_of result piece.now < length piece.now) }
    ensures empty { piece.now ≡ [] → sink.new ≡ sink.old }
{
    let mut sent = 0;
    while sent < piece.len() {
        match sink.put(&piece[sent..]) {
            Ok(count) => sent += count,
            Err(Failed) => return PutEnd::WriteFault { sent },
        }
    }
    PutEnd::Done
}
