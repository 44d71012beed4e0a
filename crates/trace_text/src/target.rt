//! The lines of a target and of the plan to it.

ghost use Rattle.std.specs.Prelude.{◌≡◌, IfOk};
ghost use Rattle.trace_text.specs.TargetLines.{target_text};

use crate::names::push_field;
use crate::proof_lines::push_plan_line;
use crate::report::push_modes;
use byte_buffer::Out;
use cca_base::{List, Model, PlanEnd, State};
use std::alloc::{AllocError, Global};

/// The line of a target state that weighs so much, and the line of the plan to it, each with its LF, by the model's names. The
/// error is out of memory.
#[tactic(auto, unfolding(crate::specs::TargetLines::target_text))]
pub fn target_lines(
    alloc: Global,
    model: &Model,
    weight: u64,
    state: &State,
    plan: &PlanEnd,
) -> Result<List<u8>, AllocError>
    ensures { IfOk result (λ text.
        text ≡ target_text model.now weight state.now.modes plan.now) }
{
    let mut out = Out::new(alloc);
    push_field(&mut out, b"target ", weight)?;
    let components = model.components().as_slice();
    push_modes(&mut out, components, state.modes.as_slice())?;
    out.push_byte(b'\n')?;
    push_plan_line(&mut out, b"plan", model, plan)?;
    Ok(List::of(out.into_vec()))
}
