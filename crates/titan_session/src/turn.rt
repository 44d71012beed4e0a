//! One line of a machine, outside the driver.

ghost use Rattle.std.specs.Prelude.{◌≡◌, ◌≤◌, ◌+◌, None, IfOk};
ghost use Rattle.line_machine.specs.Next.{next_of};
ghost use Rattle.byte_buffer.specs.Outs.{Appended, IsFront};
ghost use Rattle.line_machine.specs.Runs.{Transition};
ghost use Rattle.line_machine.specs.declared.machine.TheConstants.{MAX_LINES};

use line_machine::{End, Machine, Out, length_code};
use std::alloc::{AllocError, Global};

/// Appends what a machine says of the line of this number, and answers whether that is the end. A line that is too long or one too many is
/// refused before. The error is out of memory.
pub fn take_line<M: Machine>(
    alloc: Global,
    machine: &mut M,
    number: u64,
    line: &[u8],
    out: &mut Out,
) -> Result<Option<End>, AllocError>
    requires turn { M.awaits machine.old number }
    ensures step { IfOk result (λ end. Appended
        (Transition M.Machine machine.old number line.now (next_of machine.new end))
        out.old out.new) }
    ensures turn { IfOk result (λ end. end ≡ None → M.awaits machine.new (number + 1)) }
    ensures few { IfOk result (λ end. end ≡ None → number ≤ MAX_LINES) }
    ensures front { IsFront out.old out.new }
{
    match length_code(machine.limit(), number, line.len()) {
        Some(code) => {
            machine.refuse(alloc, number, code, out)?;
            Ok(Some(End::Refused))
        }
        None => machine.step(alloc, number, line, out),
    }
}
