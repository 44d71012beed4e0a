//! One turn of the driver: a line, the refusal of a line, or the end of the input, with what is printed for it.
ghost use Rattle.std.specs.Prelude.{◌≡◌, ◌≢◌, ◌≤◌, ◌<◌, ◌+◌, ◌^◌, ℕ, List, [], length, None, option_map, IfOk, IfErr, IfNone, OnOk, OnErr, IsErrOf};
ghost use Rattle.byte_buffer.specs.Outs.{HasRoomLeft};
ghost use Rattle.titan_wire.specs.Wire.{Rose, HasRoom};
ghost use Rattle.line_machine.specs.Next.{Next, next_of};
ghost use Rattle.line_machine.specs.Sent.{Sent, SentFront};
ghost use Rattle.line_machine.specs.SentCut.{SentCut};
ghost use Rattle.line_machine.specs.Runs.{length_code, MayPrint, Transition, Ends, MayEnd};
ghost use Rattle.line_machine.specs.declared.machine.End.{End};

use crate::machine::{End, LONG_LINE, MAX_LINES, Machine, TOO_MANY_LINES};
use crate::send::{Cut, send_out};
use byte_buffer::Out;
use std::alloc::Global;
use titan_wire::Sink;

/// The code that a line has by its number and its length alone: one too many, or too long.
pub fn length_code(limit: usize, number: u64, len: usize) -> Option<u8>
    ensures code { result ≡ length_code limit number len }
    ensures few { result ≡ None → number ≤ MAX_LINES }
    ensures short { result ≡ None → len ≤ limit }
{
    if number > MAX_LINES {
        Some(TOO_MANY_LINES)
    } else if len > limit {
        Some(LONG_LINE)
    } else {
        None
    }
}

/// Prints the refusal of a line, by a buffer that is empty before and behind it.
pub fn refuse<M: Machine, K: Sink>(
    alloc: Global,
    machine: &M,
    number: u64,
    code: u8,
    out: &mut Out,
    sink: &mut K,
) -> Result<(), Cut>
    requires empty { out.old.bytes ≡ [] }
    requires room { HasRoom (K.space sink.old) (length (M.refusal machine.now number code)) }
    ensures ok { IfOk result (λ _. Sent (λ x. x ≡ M.refusal machine.now number code)
        (K.written sink.old) (K.written sink.new) (K.space sink.old) (K.space sink.new)) }
    ensures empty { OnOk result (out.new.bytes ≡ []) }
    ensures cut { IfErr result (λ c. SentCut c (λ x. x ≡ M.refusal machine.now number code)
        (K.written sink.old) (K.written sink.new)) }
    ensures quiet { ¬ (IsErrOf result Cut.WriteFault) → K.faults sink.new ≡ K.faults sink.old }
    ensures fault { IsErrOf result Cut.WriteFault → Rose (K.faults sink.old) (K.faults sink.new) }
    ensures steady { (n : ℕ) → M.steady machine.now n → HasRoomLeft out.old n →
        ¬ (IsErrOf result Cut.Memory) }
    ensures capacity { (n : ℕ) → M.steady machine.now n → HasRoomLeft out.old n →
        out.new.capacity ≡ out.old.capacity }
{
    match machine.refuse(alloc, number, code, out) {
        Ok(()) => send_out(out, sink),
        Err(_) => Err(Cut::Memory),
    }
}

/// Hands a line to the machine, and prints what it says, by a buffer that is empty before and behind it. A line that is too long or one too
/// many is refused before.
pub fn take_line<M: Machine, K: Sink>(
    alloc: Global,
    machine: &mut M,
    number: u64,
    line: &[u8],
    out: &mut Out,
    sink: &mut K,
) -> Result<Option<End>, Cut>
    requires empty { out.old.bytes ≡ [] }
    requires room { (text : List ℕ) → MayPrint M.Machine machine.old number line.now text →
        HasRoom (K.space sink.old) (length text) }
    requires turn { M.awaits machine.old number }
    ensures ok { IfOk result (λ end. Sent (Transition M.Machine machine.old number line.now
        (next_of machine.new end)) (K.written sink.old) (K.written sink.new) (K.space sink.old)
        (K.space sink.new)) }
    ensures empty { OnOk result (out.new.bytes ≡ []) }
    ensures turn { IfOk result (λ end. end ≡ None → M.awaits machine.new (number + 1)) }
    ensures cut { IfErr result (λ c. SentCut c (MayPrint M.Machine machine.old number line.now)
        (K.written sink.old) (K.written sink.new)) }
    ensures quiet { ¬ (IsErrOf result Cut.WriteFault) → K.faults sink.new ≡ K.faults sink.old }
    ensures fault { IsErrOf result Cut.WriteFault → Rose (K.faults sink.old) (K.faults sink.new) }
    ensures steady { (n : ℕ) → M.steady machine.old n → HasRoomLeft out.old n →
        ¬ (IsErrOf result Cut.Memory) }
    ensures capacity { (n : ℕ) → M.steady machine.old n → HasRoomLeft out.old n →
        out.new.capacity ≡ out.old.capacity }
    ensures stays { (n : ℕ) → M.steady machine.old n → HasRoomLeft out.old n →
        IfOk result (λ end. end ≡ None → M.steady machine.new n) }
{
    match length_code(machine.limit(), number, line.len()) {
        Some(code) => match refuse(alloc, machine, number, code, out, sink) {
            Ok(()) => Ok(Some(End::Refused)),
            Err(cut) => Err(cut),
        },
        None => match machine.step(alloc, number, line, out) {
            Ok(end) => match send_out(out, sink) {
                Ok(()) => Ok(end),
                Err(cut) => Err(cut),
            },
            Err(_) => Err(Cut::Memory),
        },
    }
}

/// Prints what the machine says of the end of the input, by a buffer that is empty before it.
pub fn finish<M: Machine, K: Sink>(
    alloc: Global,
    machine: &mut M,
    count: u64,
    out: &mut Out,
    sink: &mut K,
) -> Result<End, Cut>
    requires empty { out.old.bytes ≡ [] }
    requires room { (e : End) (text : List ℕ) → M.closes machine.old count e text →
        HasRoom (K.space sink.old) (length text) }
    ensures ok { IfOk result (λ e. Sent (M.closes machine.old count e) (K.written sink.old)
        (K.written sink.new) (K.space sink.old) (K.space sink.new)) }
    ensures cut { IfErr result (λ c.
        SentCut c (λ text. (e : End) × M.closes machine.old count e text)
        (K.written sink.old) (K.written sink.new)) }
    ensures quiet { ¬ (IsErrOf result Cut.WriteFault) → K.faults sink.new ≡ K.faults sink.old }
    ensures fault { IsErrOf result Cut.WriteFault → Rose (K.faults sink.old) (K.faults sink.new) }
    ensures steady { (n : ℕ) → M.steady machine.old n → HasRoomLeft out.old n →
        ¬ (IsErrOf result Cut.Memory) }
    ensures capacity { (n : ℕ) → M.steady machine.old n → HasRoomLeft out.old n →
        out.new.capacity ≡ out.old.capacity }
{
    match machine.close(alloc, count, out) {
        Ok(end) => {
            send_out(out, sink)?;
            Ok(end)
        }
        Err(_) => Err(Cut::Memory),
    }
}

/// Hands the last bytes to the machine, which are one more line if there are some, and then the end of the input.
pub fn take_last<M: Machine, K: Sink>(
    alloc: Global,
    machine: &mut M,
    count: u64,
    tail: &[u8],
    out: &mut Out,
    sink: &mut K,
) -> Result<End, Cut>
    requires few { count ≤ MAX_LINES }
    requires empty { out.old.bytes ≡ [] }
    requires turn { M.awaits machine.old (count + 1) }
    requires room { (text : List ℕ) → MayEnd M.Machine machine.old count tail.now text →
        HasRoom (K.space sink.old) (length text) }
    ensures ok { IfOk result (λ e. Sent (Ends M.Machine machine.old count tail.now e)
        (K.written sink.old) (K.written sink.new) (K.space sink.old) (K.space sink.new)) }
    ensures cut { IfErr result (λ c. c ≢ Cut.ReadFault) }
    ensures front { OnErr result (SentFront (MayEnd M.Machine machine.old count tail.now)
        (K.written sink.old) (K.written sink.new)) }
    ensures quiet { ¬ (IsErrOf result Cut.WriteFault) → K.faults sink.new ≡ K.faults sink.old }
    ensures fault { IsErrOf result Cut.WriteFault → Rose (K.faults sink.old) (K.faults sink.new) }
    ensures steady { (n : ℕ) → M.steady machine.old n → HasRoomLeft out.old n →
        ¬ (IsErrOf result Cut.Memory) }
    ensures capacity { (n : ℕ) → M.steady machine.old n → HasRoomLeft out.old n →
        out.new.capacity ≡ out.old.capacity }
{
    if tail.is_empty() {
        return finish(alloc, machine, count, out, sink);
    }
    let said = match take_line(alloc, machine, count + 1, tail, out, sink) {
        Ok(said) => said,
        Err(cut) => return Err(cut),
    };
    match said {
        None => return finish(alloc, machine, count + 1, out, sink),
        Some(end) => return Ok(end),
    }
}
