//! The line of a tick whose window has a best trajectory.

ghost use Rattle.std.specs.Prelude.{◌≡◌, ◌++◌, IfOk};
ghost use Rattle.byte_buffer.specs.Outs.{Pushes};
ghost use Rattle.trace_text.specs.WindowLines.{revised_words, window_line, window_words};
ghost use Rattle.trace_text.specs.Words.{behind_spaces};

use crate::names::push_field;
use crate::report::push_estimate;
use byte_buffer::Out;
use cca_base::{List, Model};
use std::alloc::{AllocError, Global};

/// What is printed of a tick whose window has a best trajectory.
#[derive(Drop)]
pub struct WindowReport<'a> {
    pub tick: u64,
    /// How many ticks the window has.
    pub count: u64,
    /// What the trajectory costs.
    pub cost: u64,
    /// The modes in which it ends.
    pub modes: &'a [u8],
    /// The first tick at which it has changed.
    pub revised: Option<u64>,
}

/// The first tick that has changed, where there is one.
fn push_revised(out: &mut Out, revised: Option<u64>) -> Result<(), AllocError>
    ensures { Pushes (behind_spaces (revised_words revised)) out.old result out.new }
{
    match revised {
        Some(tick) => push_field(out, b" revised ", tick),
        None => Ok(()),
    }
}

/// What is printed behind the tick's number: its words, each behind a space.
fn push_window(out: &mut Out, model: &Model, report: &WindowReport) -> Result<(), AllocError>
    ensures { Pushes (behind_spaces (window_words model.now report.now.count report.now.cost report.now.modes.now report.now.revised)) out.old result out.new }
{
    push_field(out, b" window ", report.count)?;
    push_estimate(
        out,
        model.components().as_slice(),
        report.cost,
        report.modes,
    )?;
    push_revised(out, report.revised)
}

/// Appends the line of a tick whose window has a best trajectory, with its LF, by the model's names. The error is out of memory.
#[tactic(auto, unfolding(crate::specs::WindowLines::window_line))]
pub fn window_to(model: &Model, report: &WindowReport, out: &mut Out) -> Result<(), AllocError>
    ensures { Pushes (window_line model.now report.now.tick report.now.count report.now.cost
        report.now.modes.now report.now.revised) out.old result out.new }
{
    push_field(out, b"tick ", report.tick)?;
    push_window(out, model, report)?;
    out.push_byte(b'\n')
}

/// The line of a tick whose window has a best trajectory, with its LF, by the model's names. The error is out of memory.
pub fn window_line(
    alloc: Global,
    model: &Model,
    report: &WindowReport,
) -> Result<List<u8>, AllocError>
    ensures { IfOk result (λ text. text ≡ window_line model.now report.now.tick
        report.now.count report.now.cost report.now.modes.now report.now.revised) }
{
    let mut out = Out::new(alloc);
    window_to(model, report, &mut out)?;
    Ok(List::of(out.into_vec()))
}
