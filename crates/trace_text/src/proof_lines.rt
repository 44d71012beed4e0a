//! The lines that prove a tick: a world, the plan, and the way back.

ghost use Rattle.std.specs.Prelude.{◌≡◌, ◌++◌, ◌∷◌, [], IfOk, codes, map};
ghost use Rattle.byte_buffer.specs.Outs.{Pushes};
ghost use Rattle.trace_text.specs.Names.{name_at, choice_text, value_row};
ghost use Rattle.trace_text.specs.LineWords.{is_only_long, value_words, plan_words};
ghost use Rattle.trace_text.specs.ProofLines.{plan_line, route_text, world_line};
ghost use Rattle.trace_text.specs.Words.{behind_spaces};

use crate::names::{push_choice_word, push_word};
use byte_buffer::Out;
use cca_base::{List, Model, Name, PlanEnd, Route, Variable, World};
use model_syntax::name_at;
use std::alloc::{AllocError, Global};

/// Each variable with its value, each behind a space.
fn push_values(out: &mut Out, variables: &[Variable], values: &[u8]) -> Result<(), AllocError>
    ensures { Pushes (behind_spaces (value_words variables.now values.now)) out.old result out.new }
{
    for (i, variable) in variables.iter().enumerate() {
        let Some(value) = values.get(i) else {
            return Ok(());
        };
        let names = variable.values.as_slice();
        push_choice_word(out, variable.name.bytes(), names, *value)?;
    }
    Ok(())
}

/// The line of a world, with its LF, by the model's names. The error is out of memory.
#[tactic(auto, unfolding(crate::specs::ProofLines::world_line))]
pub fn world_line(alloc: Global, model: &Model, world: &World) -> Result<List<u8>, AllocError>
    ensures { IfOk result (λ text. text ≡ world_line model.now world.now) }
{
    let mut out = Out::new(alloc);
    out.push(b"world")?;
    let variables = model.variables().as_slice();
    push_values(&mut out, variables, world.values.as_slice())?;
    out.push_byte(b'\n')?;
    Ok(List::of(out.into_vec()))
}

/// Whether the only command of the plan is named `long`.
fn is_only_long(names: &[Name], plan: &[u16]) -> bool
    ensures { result ≡ is_only_long names.now plan.now }
{
    match plan {
        [command] => name_at(names, *command as usize) == b"long".as_slice(),
        _ => false,
    }
}

/// Each command, behind a space.
fn push_commands(out: &mut Out, names: &[Name], plan: &[u16]) -> Result<(), AllocError>
    ensures { Pushes (behind_spaces (map (name_at names.now) plan.now)) out.old result out.new }
{
    for command in plan {
        push_word(out, name_at(names, *command as usize))?;
    }
    Ok(())
}

/// A plan, behind the word of its line.
fn push_plan(out: &mut Out, names: &[Name], end: &PlanEnd) -> Result<(), AllocError>
    ensures { Pushes (behind_spaces (plan_words names.now end.now)) out.old result out.new }
{
    match end {
        PlanEnd::Long => out.push(b" long"),
        PlanEnd::Plan(plan) => {
            let plan = plan.as_slice();
            if is_only_long(names, plan) {
                out.push_byte(b' ')?;
            }
            push_commands(out, names, plan)
        }
    }
}

/// The line of a plan that begins with the word.
pub fn push_plan_line(
    out: &mut Out,
    word: &[u8],
    model: &Model,
    end: &PlanEnd,
) -> Result<(), AllocError>
    ensures { Pushes (plan_line word.now model.now end.now) out.old result out.new }
{
    out.push(word)?;
    push_plan(out, model.commands().as_slice(), end)?;
    out.push_byte(b'\n')
}

/// The lines of the plan and of the way back, each with its LF, by the model's names. The error is out of memory.
#[tactic(auto, unfolding(crate::specs::ProofLines::route_text))]
pub fn route_lines(alloc: Global, model: &Model, route: &Route) -> Result<List<u8>, AllocError>
    ensures { IfOk result (λ text. text ≡ route_text model.now route.now) }
{
    let mut out = Out::new(alloc);
    push_plan_line(&mut out, b"plan", model, &route.plan)?;
    push_plan_line(&mut out, b"back", model, &route.back)?;
    Ok(List::of(out.into_vec()))
}
