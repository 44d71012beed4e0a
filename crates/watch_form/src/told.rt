//! What is printed of a tick.

ghost use Rattle.std.specs.Prelude.{◌≡◌};
ghost use Rattle.byte_buffer.specs.Outs.{Pushes};
ghost use Rattle.trajectory_estimator.specs.Asked.{modes_of};
ghost use Rattle.trajectory_estimator.specs.Tracked.{answer_of};
ghost use Rattle.watch_form.specs.Answered.{answer_line, last_modes};

use cca_base::{Model, State};
use line_machine::Out;
use std::alloc::AllocError;
use trace_text::{ReportRef, ShownRef, WindowReport, report_to, window_to};
use trajectory_estimator::Window;

/// The modes of the last state.
fn last_modes(states: &[State]) -> &[u8]
    ensures { result.now ≡ last_modes (modes_of states.now) }
{
    match states {
        [.., last] => last.modes.as_slice(),
        [] => &[],
    }
}

/// Appends the line of a tick's answer. The error is out of memory.
pub fn told(model: &Model, tick: u64, answer: &Window, out: &mut Out) -> Result<(), AllocError>
    ensures { Pushes (answer_line model.now (record { tick = tick; answer = answer_of answer.now }))
        out.old result out.new }
{
    match answer {
        Window::Found { path, revised } => {
            let report = WindowReport {
                tick,
                count: path.states.len() as u64,
                cost: path.cost,
                modes: last_modes(path.states.as_slice()),
                revised: *revised,
            };
            window_to(model, &report, out)
        }
        Window::Unexplained => {
            let shown = ShownRef::Unexplained;
            report_to(model, ReportRef { tick, shown }, out)
        }
        Window::Holding => {
            let shown = ShownRef::Holding;
            report_to(model, ReportRef { tick, shown }, out)
        }
    }
}
