//! The machine of a check behind its model: it reads a script, and then judges a printed trace of it, line by line.

ghost use Rattle.std.specs.Prelude.{◌≡◌, IfOk};
ghost use Rattle.model_form.specs.FormStates.{form_first};

use crate::check_script::ScriptEvents;
use crate::check_trace::TraceCheck;
use crate::item::CheckItem;
use cca_base::codes::ENDS_EARLY;
use cca_base::{Model, Stop};
use line_forms::{LineForm, Lines, OpensLines, kept_line, placed};
use line_machine::{End, Out};
use model_form::{Accepted, MAX_LINE, OfLines, WithModel, refuse_code_to};
use std::alloc::{AllocError, Global};
use std::mem;
use trace_text::MAX_TRACE_LINE;

/// Where a check stands behind its model.
#[derive(Drop)]
pub enum Part {
    /// In its script.
    Script(ScriptEvents),
    /// In its trace.
    Trace(TraceCheck),
}

/// A check behind an accepted model.
#[derive(Drop)]
pub struct Checking {
    accepted: Accepted,
    part: Part,
}

impl std::marker::Model for Checking {
    ghost use Rattle.check_form.specs.CheckMachine.{CheckState};
    ghost use Rattle.check_form.specs.CheckStages.{KeepsPart, part_state};
    ghost use Rattle.cca_base.specs.Prelude.{model_codes};

    ghost Value = { CheckState };

    ghost coded = { Prim.hlevel model_codes };

    ghost view = { λ c. part_state c.accepted c.part };

    ghost invariant = { λ c. KeepsPart c.accepted.model c.part };
}

impl OpensLines<CheckItem> for Checking {
    ghost use Rattle.check_form.specs.CheckMachine.{check_first};

    ghost first = { check_first };

    fn open(alloc: Global, accepted: Accepted) -> Result<Checking, AllocError> {
        Ok(Checking {
            accepted,
            part: Part::Script(ScriptEvents::new(alloc)),
        })
    }
}

// What is said and done stands in `check_lines` (specs/CheckMachine.antt).
impl LineForm<CheckItem> for Checking {
    ghost use Rattle.check_form.specs.CheckMachine.{check_lines};
    ghost use Rattle.check_form.specs.CheckOneStep.{said_one, serves_one};

    ghost means = { check_lines };

    ghost said_one = { said_one };

    ghost serves_one = { serves_one };

    ghost steady_refusals = { λ x n h. absurd h };

    ghost awaits_on = { λ x n h. tt };

    fn model(&self) -> &Model {
        self.accepted.compiled().model()
    }

    fn is_json(&self) -> bool {
        false
    }

    fn limit(&self) -> usize {
        match &self.part {
            Part::Script(_) => MAX_LINE,
            Part::Trace(_) => MAX_TRACE_LINE,
        }
    }

    fn skips_empty(&self) -> bool {
        // (one of a trace is a line like any other, and one of its script is read)
        false
    }

    fn place(&self, _alloc: Global) -> Result<CheckItem, AllocError> {
        Ok(CheckItem::Trace)
    }

    fn read(&self, alloc: Global, line: &[u8], item: &mut CheckItem) -> Result<bool, Stop> {
        let _compiled = self.accepted.compiled().model();
        match &self.part {
            Part::Script(script) => {
                let read = script.read(alloc, self.accepted.named(), line)?;
                Ok(placed(read, item))
            }
            Part::Trace(_) => {
                *item = CheckItem::Judges(kept_line(alloc, line)?);
                Ok(true)
            }
        }
    }

    fn serve(
        &mut self,
        alloc: Global,
        _number: u64,
        item: &mut CheckItem,
        out: &mut Out,
    ) -> Result<Option<End>, AllocError> {
        let item = mem::replace(item, CheckItem::Trace);
        let model = self.accepted.compiled().model();
        match &mut self.part {
            Part::Script(script) => match item {
                CheckItem::Keeps(event) => {
                    script.keep(alloc, model, event)?;
                    Ok(None)
                }
                CheckItem::Trace => {
                    let read = mem::replace(script, ScriptEvents::new(alloc));
                    let ScriptEvents { events, .. } = read;
                    let trace = TraceCheck::open(alloc, model, events)?;
                    self.part = Part::Trace(trace);
                    Ok(None)
                }
                CheckItem::Judges(_) => unreachable!(),
            },
            Part::Trace(trace) => match item {
                CheckItem::Judges(bytes) => trace.line(alloc, model, bytes.as_slice(), out),
                CheckItem::Keeps(_) | CheckItem::Trace => unreachable!(),
            },
        }
    }

    fn close(&mut self, alloc: Global, count: u64, out: &mut Out) -> Result<End, AllocError> {
        match &self.part {
            Part::Trace(trace) => trace.close(alloc, out),
            Part::Script(_) => {
                let model = self.accepted.compiled().model();
                refuse_code_to(alloc, false, model, count, ENDS_EARLY, out)?;
                Ok(End::Refused)
            }
        }
    }
}

/// The form `check`: behind the model stand a script, a line `trace`, and a printed trace.
pub type CheckMachine = WithModel<OfLines, Lines<Checking, CheckItem>>;

/// The form before the first line.
pub fn open_check(alloc: Global) -> Result<CheckMachine, AllocError>
    ensures { IfOk result (λ w. w ≡ form_first (record {})) }
{
    WithModel::open(alloc, OfLines)
}
