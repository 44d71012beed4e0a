//! Line-buffered output: a text goes out line by line, each line with its LF as one piece.
ghost use Rattle.std.specs.Prelude.{◌≡◌, ◌+◌, ◌<◌, ◌≤◌, [], ◌++◌, length, IfErr, OnOk, OnErr};
ghost use Rattle.titan_wire.specs.Wire.{Rose, HasRoom};
ghost use Rattle.line_machine.specs.Lines.{IsOneLine};
ghost use Rattle.line_machine.specs.Sent.{Sent, SentFront};

use crate::buffer::lf_place;
use byte_buffer::Out;
use titan_wire::{PutEnd, Sink, put_all};

/// Why a program stopped short of its end.
#[derive(Clone, Copy, Debug, PartialEq, Eq)]
pub enum Cut {
    ReadFault,
    WriteFault,
    Memory,
}

/// The first line with its LF, if it has one, and what stands behind it.
fn split_piece(bytes: &[u8]) -> (&[u8], &[u8])
    requires { 0 < length bytes.now }
    ensures parts { result.0.now ++ result.1.now ≡ bytes.now }
    ensures shorter { length result.1.now < length bytes.now }
    ensures line { IsOneLine result.0.now result.1.now }
{
    match lf_place(bytes) {
        Some(len) => (&bytes[..len + 1], &bytes[len + 1..]),
        None => (bytes, &[]),
    }
}

/// Sends a text, each line with its LF as one piece.
pub fn send<K: Sink>(sink: &mut K, text: &[u8]) -> Result<(), Cut>
    requires { HasRoom (K.space sink.old) (length text.now) }
    ensures sent { OnOk result (Sent (λ x. x ≡ text.now) (K.written sink.old) (K.written sink.new)
        (K.space sink.old) (K.space sink.new)) }
    ensures cut { IfErr result (λ c. c ≡ Cut.WriteFault) }
    ensures front { OnErr result (SentFront (λ x.
        x ≡ text.now) (K.written sink.old) (K.written sink.new)) }
    ensures quiet { OnOk result (K.faults sink.new ≡ K.faults sink.old) }
    ensures fault { OnErr result (Rose (K.faults sink.old) (K.faults sink.new)) }
{
    let mut rest = text;
    'pieces: while !rest.is_empty() {
        let (piece, after) = split_piece(rest);
        match put_all(sink, piece) {
            PutEnd::Done => rest = after,
            PutEnd::WriteFault { .. } => return Err(Cut::WriteFault),
        }
    }
    Ok(())
}

/// Sends what is to be printed, and then clears it.
pub fn send_out<K: Sink>(out: &mut Out, sink: &mut K) -> Result<(), Cut>
    requires { HasRoom (K.space sink.old) (length out.old.bytes) }
    ensures sent { OnOk result (Sent (λ x. x ≡ out.old.bytes) (K.written sink.old)
        (K.written sink.new) (K.space sink.old) (K.space sink.new)) }
    ensures empty { OnOk result (out.new.bytes ≡ []) }
    ensures capacity { out.new.capacity ≡ out.old.capacity }
    ensures cut { IfErr result (λ c. c ≡ Cut.WriteFault) }
    ensures front { OnErr result (SentFront (λ x.
        x ≡ out.old.bytes) (K.written sink.old) (K.written sink.new)) }
    ensures quiet { OnOk result (K.faults sink.new ≡ K.faults sink.old) }
    ensures fault { OnErr result (Rose (K.faults sink.old) (K.faults sink.new)) }
{
    match send(sink, out.as_slice()) {
        Ok(()) => {
            out.clear();
            Ok(())
        }
        Err(cut) => Err(cut),
    }
}
