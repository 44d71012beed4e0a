//! Lines of a printed trace, read back.

ghost use Rattle.std.specs.Prelude.{◌≡◌, ◌≢◌, ◌++◌, ◌∷◌, [], Err, map, IfOk};
ghost use Rattle.trace_text.specs.LineWords.{IsReadFrom, line_words, plan_words};
ghost use Rattle.trace_text.specs.TraceLines.{FitsLine, FitsPlan, trace_line};

use crate::read_parts::{read_plan, read_values};
use crate::read_report::read_report;
use crate::words::words_of;
use cca_base::{Model, PlanEnd, TickReport, World};
use std::alloc::{AllocError, Global};
use thiserror::Error;

/// A line of a printed trace.
#[derive(Debug, Drop)]
pub enum TraceLine {
    /// What a tick reports.
    Tick(TickReport),
    /// A world of the estimate.
    World(World),
    /// The plan that the command begins.
    Plan(PlanEnd),
    /// The way back from the plan's end.
    Back(PlanEnd),
}

/// Why no value is read from a line.
#[derive(Clone, Copy, Debug, PartialEq, Eq, Error)]
pub enum LineFault {
    /// The line is no text of a value that fits the model.
    #[error("the line is no text of a value that fits the model")]
    NotALine,
    /// There was not enough memory.
    #[error("out of memory")]
    Memory,
}

impl From<AllocError> for LineFault {
    ghost use Rattle.trace_text.specs.declared.trace_line.LineFault.TheVariants.{Memory};

    ghost from_gives = { λ _ e. e ≡ Memory };

    fn from(_e: AllocError) -> LineFault {
        LineFault::Memory
    }
}

/// What the words behind the first one say.
fn read_kind(
    alloc: Global,
    model: &Model,
    head: &[u8],
    words: &[&[u8]],
) -> Result<Option<TraceLine>, AllocError>
    ensures { IfOk result (IsReadFrom (head.now ∷ map (λ w.
        w.now) words.now) (FitsLine model.now) (line_words model.now)) }
{
    if head == b"tick".as_slice() {
        let report = read_report(alloc, model, words)?;
        Ok(report.map(TraceLine::Tick))
    } else if head == b"world".as_slice() {
        let values = read_values(alloc, model, words)?;
        Ok(values.map(|values| TraceLine::World(World { values })))
    } else if head == b"plan".as_slice() {
        let plan = read_plan(alloc, model, words)?;
        Ok(plan.map(TraceLine::Plan))
    } else if head == b"back".as_slice() {
        let plan = read_plan(alloc, model, words)?;
        Ok(plan.map(TraceLine::Back))
    } else {
        Ok(None)
    }
}

/// What the words of a line say.
fn read_words(
    alloc: Global,
    model: &Model,
    words: &[&[u8]],
) -> Result<Option<TraceLine>, AllocError>
    ensures { IfOk result (IsReadFrom (map (λ w.
        w.now) words.now) (FitsLine model.now) (line_words model.now)) }
{
    match words {
        [head, rest @ ..] => read_kind(alloc, model, head, rest),
        [] => Ok(None),
    }
}

/// The value whose text, without its LF, the line is. No other value that fits the model has this text.
pub fn read_line(alloc: Global, model: &Model, line: &[u8]) -> Result<TraceLine, LineFault>
    ensures fits { IfOk result (FitsLine model.now) }
    ensures text { IfOk result (λ value. trace_line model.now value ≡ line.now ++ 10 ∷ []) }
    ensures only { IfOk result (λ value.
        (other : TraceLine) → FitsLine model.now other →
        trace_line model.now other ≡ line.now ++ 10 ∷ [] → other ≡ value) }

    // No value that fits the model has the text.
    ensures not_a_line { result ≡ Err LineFault.NotALine → (value : TraceLine) →
        FitsLine model.now value → trace_line model.now value ≢ line.now ++ 10 ∷ [] }
{
    let _well_formed = model.components();
    let words = words_of(alloc, line)?;
    match read_words(alloc, model, words.as_slice())? {
        Some(value) => Ok(value),
        None => Err(LineFault::NotALine),
    }
}
