//! What is printed of a tick.

ghost use Rattle.std.specs.Prelude.{true};
ghost use Rattle.byte_buffer.specs.Outs.{HasRoomLeft, Pushes};
ghost use Rattle.executive_loop.specs.Borrowed.{report_with};
ghost use Rattle.line_machine.specs.Steady.{TookNone};
ghost use Rattle.program_form.specs.Printed.{done_line, most_told, told_text};

use cca_base::{Model, State};
use executive_loop::Made;
use line_machine::Out;
use std::alloc::AllocError;
use steady_events::reported;
use trace_text::{push_field, report_to};

/// How much room is enough for the line of a program that has ended.
pub const DONE_ROOM: usize = 26;

/// Appends the line of a program that has ended before the tick.
#[tactic(auto, unfolding(crate::specs::Printed::done_line))]
fn push_done(out: &mut Out, tick: u64) -> Result<(), AllocError>
    ensures { Pushes (done_line true tick) out.old result out.new }
{
    push_field(out, b"done ", tick)?;
    out.push_byte(b'\n')
}

/// The same, which takes no memory where there is room for it.
#[tactic(auto, using(crate::proofs::ToldRoom::done_succeeds, crate::proofs::ToldRoom::done_stays))]
fn done_to(out: &mut Out, tick: u64) -> Result<(), AllocError>
    ensures pushes { Pushes (done_line true tick) out.old result out.new }
    ensures steady { HasRoomLeft out.old DONE_ROOM → TookNone out.old result out.new }
{
    push_done(out, tick)
}

/// Appends the line of a tick that left this estimate, and behind it that the program has ended, where it has. The error is out of
/// memory.
pub fn tell(
    model: &Model,
    made: Made,
    estimate: &State,
    ended: bool,
    out: &mut Out,
) -> Result<(), AllocError>
    ensures pushes { Pushes (told_text model.now
        (record { report = report_with estimate.now.modes made; ended = ended })) out.old result
        out.new }

    // Where there is room for what is told of any tick of the model it takes no memory, and can't fail.
    ensures steady { HasRoomLeft out.old (most_told model.now) → TookNone out.old result out.new }
{
    report_to(model, reported(made, estimate), out)?;
    if ended {
        done_to(out, made.tick)?;
    }
    Ok(())
}
