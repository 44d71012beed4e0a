//! The driver: one loop that reads a line, steps the machine, and prints what it says before it reads again.
ghost use Rattle.std.specs.Prelude.{◌≡◌, ◌+◌, ◌<◌, ◌≤◌, ℕ, Some, None, IsErrOf, IsTrue, IfSome, IfOk, List, []};
ghost use Rattle.titan_wire.specs.Wire.{Rose};
ghost use Rattle.line_machine.specs.Lines.{HasLine};
ghost use Rattle.line_machine.specs.Next.{GoesOn};
ghost use Rattle.line_machine.specs.Runs.{length_code, IsText, Transition};
ghost use Rattle.line_machine.specs.declared.machine.End.{End};
ghost use Rattle.line_machine.specs.Calls.{DrivenInTurn};
ghost use Rattle.line_machine.specs.Driven.{HasRoomFor};
ghost use Rattle.byte_buffer.specs.Outs.{HasRoomLeft};
ghost use Rattle.line_machine.specs.Faults.{AnswersFaults};
ghost use Rattle.line_machine.specs.KnownInput.{Streamed, OutputFor};

use crate::buffer::{FillStop, Found, LineBuffer};
use crate::intake::Intake;
use crate::line::{refuse, take_last, take_line};
use crate::machine::{End, LINE_ROOM, LONG_LINE, MAX_LINES, Machine, TOO_MANY_LINES};
use crate::send::Cut;
use byte_buffer::Out;
use std::alloc::Global;
use titan_wire::Sink;

/// How many bytes the driver's buffer has room for: the text of a line fits.
pub const OUT_ROOM: usize = 32_768;

/// The most bytes of the line behind so many lines, and the code that it has with more.
#[tactic(auto, using(crate::proofs::LengthCodes::long_code, crate::proofs::LengthCodes::short_code, crate::proofs::LengthCodes::many_code))]
fn next_limit<M: Machine>(machine: &M, count: u64) -> (usize, u8)
    ensures long { (len : ℕ) → result.0 < len →
        length_code (M.limit_of machine.now) (count + 1) len ≡
        Some result.1 }
    ensures short { (len : ℕ) → 0 < len → len ≤ result.0 →
        length_code (M.limit_of machine.now) (count + 1) len ≡ None }
    ensures steady { (n : ℕ) → M.steady machine.now n → result.0 ≤ LINE_ROOM }
{
    if count < MAX_LINES {
        (machine.limit(), LONG_LINE)
    } else {
        (0, TOO_MANY_LINES)
    }
}

/// Whether the line behind so many is an empty one that stands in the buffer, isn't one too many, and does nothing.
#[tactic(auto, using(crate::proofs::LengthCodes::empty_leads))]
fn skips_line<M: Machine>(machine: &M, count: u64, buffer: &LineBuffer) -> bool
    ensures line { IsTrue result → HasLine buffer.now 0 }
    ensures skips { IsTrue result →
        Transition M.Machine machine.now (count + 1) [] (GoesOn machine.now) [] }
    ensures turn { IsTrue result → M.awaits machine.now (count + 1) →
        M.awaits machine.now (count + 1 + 1) }
    ensures few { IsTrue result → count + 1 ≤ MAX_LINES }
{
    count < MAX_LINES && buffer.begins_empty() && machine.skips_empty()
}

/// The loop of `drive`, over buffers that are made.
fn drive_turns<M: Machine, S, K: Sink, I: Intake<S, K>>(
    alloc: Global,
    machine: &mut M,
    source: &mut S,
    sink: &mut K,
    buffer: &mut LineBuffer,
    out: &mut Out,
) -> Result<End, Cut>
    requires room { HasRoomFor M.Machine machine.old (I.left source.old) (K.space sink.old) }
    requires first { M.awaits machine.old 1 }
    requires none_held { buffer.old ≡ [] }
    requires none_said { out.old.bytes ≡ [] }
    requires out_room { HasRoomLeft out.old OUT_ROOM }
    ensures driven { DrivenInTurn M.Machine machine.old (I.left source.old) (I.left source.new)
        (K.written sink.old) (K.written sink.new) (I.calls source.old) (I.calls source.new) result }
    ensures read { IsErrOf result Cut.ReadFault → Rose (I.faults source.old) (I.faults source.new) }
    ensures write { IsErrOf result Cut.WriteFault → Rose (K.faults sink.old) (K.faults sink.new) }
    ensures quiet_read { ¬ (IsErrOf result Cut.ReadFault) →
        I.faults source.new ≡ I.faults source.old }
    ensures quiet_write { ¬ (IsErrOf result Cut.WriteFault) →
        K.faults sink.new ≡ K.faults sink.old }
{
    let mut count: u64 = 0;
    'lines: loop {
        if skips_line(machine, count, buffer) {
            buffer.drop_line(0);
            count += 1;
            continue;
        }
        let (limit, code) = next_limit(machine, count);
        let found = match buffer.next_line::<S, K, I>(source, sink, limit) {
            Ok(found) => found,
            Err(FillStop::Fault) => return Err(Cut::ReadFault),
            Err(FillStop::Memory) => return Err(Cut::Memory),
        };
        let len = match found {
            Found::Line(len) => len,
            Found::Long => match refuse(alloc, machine, count + 1, code, out, sink) {
                Ok(()) => return Ok(End::Refused),
                Err(cut) => return Err(cut),
            },
            Found::Last => {
                let len = buffer.len();
                return take_last(alloc, machine, count, buffer.front(len), out, sink);
            }
        };
        let said = match take_line(alloc, machine, count + 1, buffer.front(len), out, sink) {
            Ok(said) => said,
            Err(cut) => return Err(cut),
        };
        match said {
            None => {}
            Some(end) => return Ok(end),
        }
        let Ok(()) = out.reserve(OUT_ROOM) else {
            return Err(Cut::Memory);
        };
        buffer.drop_line(len);
        count += 1;
    }
}

/// Makes the buffers before the first byte is read, and runs the loop over them.
fn drive_lines<M: Machine, S, K: Sink, I: Intake<S, K>>(
    alloc: Global,
    machine: &mut M,
    source: &mut S,
    sink: &mut K,
) -> Result<End, Cut>
    requires room { HasRoomFor M.Machine machine.old (I.left source.old) (K.space sink.old) }
    requires first { M.awaits machine.old 1 }
    ensures driven { DrivenInTurn M.Machine machine.old (I.left source.old) (I.left source.new)
        (K.written sink.old) (K.written sink.new) (I.calls source.old) (I.calls source.new) result }
    ensures faults { AnswersFaults (I.faults source.old) (I.faults source.new) (K.faults sink.old)
        (K.faults sink.new) result }
{
    let Ok(mut buffer) = LineBuffer::with_room(alloc) else {
        return Err(Cut::Memory);
    };
    let Ok(mut out) = Out::with_capacity(alloc, OUT_ROOM) else {
        return Err(Cut::Memory);
    };
    drive_turns::<M, S, K, I>(alloc, machine, source, sink, &mut buffer, &mut out)
}

/// Hands the lines of a source to the machine, one after the other, and what it says of each to the sink before the next one is
/// read. The source is asked by an intake, so that the order of reads and writes can be said; `Unwatched` asks any source by itself.
pub fn drive<M: Machine, S, K: Sink, I: Intake<S, K>>(
    alloc: Global,
    machine: &mut M,
    source: &mut S,
    sink: &mut K,
) -> Result<End, Cut>
    requires room { HasRoomFor M.Machine machine.old (I.left source.old) (K.space sink.old) }
    requires first { M.awaits machine.old 1 }

    // Over every source: some bytes, those that were taken where they are known, what the machine says of them, and what of it was
    // written.
    ensures streamed { Streamed M.Machine machine.old (I.left source.old) (I.left source.new)
        (K.written sink.old) (K.written sink.new) result }

    // Where the intake notes its calls, those bytes are what they brought. At each call all that the bytes so far decide had been
    // written, and that is no end; after a call that brings nothing there is no other. Memory doesn't run out where the bytes of all calls
    // but the last one lead to a state from which no line takes memory.
    ensures order { DrivenInTurn M.Machine machine.old (I.left source.old) (I.left source.new)
        (K.written sink.old) (K.written sink.new) (I.calls source.old) (I.calls source.new) result }

    // Over a source whose bytes are known: the whole text of the input, or a prefix of it.
    ensures text { IfSome (I.left source.old) (λ input. OutputFor M.Machine machine.old input
        (K.written sink.old) (K.written sink.new) result) }

    // An answer without a fault is the end of each text of the input.
    ensures ends { IfSome (I.left source.old) (λ input. (e : End) (text : List ℕ) →
        IsText M.Machine machine.old input e text → IfOk result (λ f. f ≡ e)) }

    // Each fault has its cause, and none is passed over. Where no fault rose, it comes to the end, or memory ran out.
    ensures faults { AnswersFaults (I.faults source.old) (I.faults source.new) (K.faults sink.old)
        (K.faults sink.new) result }
{
    drive_lines::<M, S, K, I>(alloc, machine, source, sink)
}
