//! A machine that was opened is driven; or memory ran out before it was there.

ghost use Rattle.std.specs.Prelude.{◌≡◌, IfOk};
ghost use Rattle.line_machine.specs.Driven.{HasRoomFor};
ghost use Rattle.line_machine.specs.Faults.{AnswersFaults};
ghost use Rattle.line_machine.specs.IsDriven.{IsDriven};

use crate::driver::drive;
use crate::intake::Intake;
use crate::machine::{End, Machine};
use crate::send::Cut;
use std::alloc::{AllocError, Global};
use titan_wire::Sink;

/// Drives the machine, if it could be opened. What is said of it is said of its first state.
pub fn drive_opened<M: Machine + Drop, S, K: Sink, I: Intake<S, K>>(
    alloc: Global,
    opened: Result<M, AllocError>,
    source: &mut S,
    sink: &mut K,
) -> Result<End, Cut>
    requires room { IfOk opened (λ m.
        HasRoomFor M.Machine m (I.left source.old) (K.space sink.old)) }
    requires first { IfOk opened (λ m. M.awaits m 1) }
    ensures driven { (first : M) → IfOk opened (λ m. m ≡ first) →
        IsDriven M.Machine first (I.left source.old) (I.left source.new)
        (K.written sink.old) (K.written sink.new) (I.calls source.old) (I.calls source.new) result }
    ensures faults { AnswersFaults (I.faults source.old) (I.faults source.new) (K.faults sink.old)
        (K.faults sink.new) result }
{
    match opened {
        Ok(mut machine) => drive::<M, S, K, I>(alloc, &mut machine, source, sink),
        Err(_) => Err(Cut::Memory),
    }
}
