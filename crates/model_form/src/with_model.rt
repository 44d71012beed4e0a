//! The machine of a form that reads a model.

ghost use Rattle.std.specs.Prelude.{◌≡◌, ◌≤◌, ◌+◌, None, IfOk, length};
ghost use Rattle.cca_base.specs.Prelude.{IsComplete};
ghost use Rattle.formula_syntax.specs.Lookups.{NamesFit};
ghost use Rattle.byte_buffer.specs.Outs.{Appended, IsFront};
ghost use Rattle.line_machine.specs.Next.{next_of};
ghost use Rattle.model_form.specs.FormMachine.{AtScript, FormAwaits, FormSteps, limit_in};
ghost use Rattle.model_form.specs.FormStates.{form_first};
ghost use Rattle.model_form.specs.Openings.{next_by, AwaitsBy};

use crate::accepted::Accepted;
use crate::form::{Begun, ModelForm, Opened};
use crate::limits::MAX_LINE;
use crate::refused::{refuse_code_to, refuse_model_to, refuse_stop_to};
use acceptance::accept;
use cca_base::codes::ENDS_EARLY;
use cca_base::{Model, Name, Subject};
use indexmap::IndexMap;
use line_machine::{End, Machine, Out};
use model_syntax::{LineEnd, ModelReader};
use std::alloc::{AllocError, Global};
use std::mem;

/// Where a form stands.
#[derive(Drop)]
enum Stage<F, B> {
    /// In its model.
    Model(F, ModelReader),
    /// Behind it.
    Behind(Box<B>),
}

/// A form that reads a model.
#[derive(Drop)]
pub struct WithModel<F, B> {
    stage: Stage<F, B>,
}

impl<F, B> std::marker::Model for WithModel<F, B> {
    ghost use Rattle.model_form.specs.FormStates.{FormState};
    ghost use Rattle.cca_base.specs.Prelude.{model_codes};

    ghost Value = { FormState F B };

    ghost coded = { Prim.hlevel model_codes };

    ghost use Rattle.model_form.specs.FormStages.{form_state};

    ghost view = { λ w. form_state w.stage };
}

/// Takes the line `script` behind a model.
fn at_script<F: ModelForm<B>, B: Machine + Drop>(
    alloc: Global,
    form: &F,
    model: Model,
    names: IndexMap<Name, Subject>,
    number: u64,
    out: &mut Out,
) -> Begun<B>
    requires complete { IsComplete model }
    requires fit { NamesFit names model }
    ensures begins { IfOk result (λ o. Appended
        (AtScript F.ModelForm B.Machine form.now model number (next_by o)) out.old out.new) }
    ensures turn { IfOk result (λ o. AwaitsBy B.Machine o (number + 1)) }
    ensures front { IsFront out.old out.new }
{
    match accept(alloc, model) {
        Ok(compiled) => form.begin(alloc, Accepted::new(compiled, names), number, out),
        Err(stop) => {
            refuse_model_to(alloc, form.is_json(), number, stop, out)?;
            Ok(Opened::Ended(End::Refused))
        }
    }
}

impl<F: ModelForm<B> + Drop, B: Machine + Drop> WithModel<F, B> {
    /// Before the first line.
    pub fn open(alloc: Global, form: F) -> Result<WithModel<F, B>, AllocError>
        ensures { IfOk result (λ w. w ≡ form_first form) }
    {
        let reader = ModelReader::open(alloc)?;
        Ok(WithModel {
            stage: Stage::Model(form, reader),
        })
    }

    /// Takes a line, by a call of its own: its locals are as large as the machine behind the model, and a function pays for its locals at
    /// each call.
    fn step_rarely(
        &mut self,
        alloc: Global,
        number: u64,
        line: &[u8],
        out: &mut Out,
    ) -> Result<Option<End>, AllocError>
        requires short { length line.now ≤ limit_in F.ModelForm B.Machine self.old }
        requires turn { FormAwaits F.ModelForm B.Machine self.old number }
        ensures steps { IfOk result (λ end. Appended
            (FormSteps F.ModelForm B.Machine self.old number line.now (next_of self.new end)) out.old out.new) }
        ensures turn { IfOk result (λ end. end ≡ None → FormAwaits F.ModelForm B.Machine self.new (number + 1)) }
        ensures front { IsFront out.old out.new }
    {
        match &mut self.stage {
            Stage::Behind(behind) => behind.step(alloc, number, line, out),
            Stage::Model(form, reader) => match reader.line(line) {
                Ok(LineEnd::Going) => Ok(None),
                Ok(LineEnd::Script) => {
                    let read = mem::replace(reader, ModelReader::open(alloc)?);
                    let (model, names) = read.finish_named();
                    match at_script(alloc, form, model, names, number, out)? {
                        Opened::Lines(behind) => {
                            self.stage = Stage::Behind(behind);
                            Ok(None)
                        }
                        Opened::Ended(end) => Ok(Some(end)),
                    }
                }
                Err(stop) => {
                    let json = form.is_json();
                    refuse_stop_to(alloc, json, reader.model(), number, &stop, out)?;
                    Ok(Some(End::Refused))
                }
            },
        }
    }
}

// By the clauses of the trait a line gives `FormSteps`, and the end of the input `FormCloses` (specs/FormMachine.antt).
impl<F: ModelForm<B> + Drop, B: Machine + Drop> Machine for WithModel<F, B> {
    ghost use Rattle.model_form.specs.FormMachine.{limit_in, refusal_in, FormSteps, FormCloses, FormAwaits, FormSteady};
    ghost use Rattle.model_form.specs.OneStep.{form_steps_are_one, form_closes_are_one};

    ghost limit_of = { limit_in F.ModelForm B.Machine };

    ghost refusal = { refusal_in F.ModelForm B.Machine };

    ghost steps = { FormSteps F.ModelForm B.Machine };

    ghost closes = { FormCloses F.ModelForm B.Machine };

    ghost awaits = { FormAwaits F.ModelForm B.Machine };

    ghost steady = { FormSteady F.ModelForm B.Machine };

    ghost steps_are_one = { form_steps_are_one F.ModelForm.own B.Machine.own F.begins_one_way B.steps_are_one };

    ghost closes_are_one = { form_closes_are_one F.ModelForm.own B.Machine.own B.closes_are_one };

    fn limit(&self) -> usize {
        match &self.stage {
            Stage::Model(..) => MAX_LINE,
            Stage::Behind(behind) => behind.limit(),
        }
    }

    fn skips_empty(&self) -> bool {
        match &self.stage {
            Stage::Model(..) => false,
            Stage::Behind(behind) => behind.skips_empty(),
        }
    }

    fn refuse(
        &self,
        alloc: Global,
        number: u64,
        code: u8,
        out: &mut Out,
    ) -> Result<(), AllocError> {
        match &self.stage {
            Stage::Model(form, reader) => {
                refuse_code_to(alloc, form.is_json(), reader.model(), number, code, out)
            }
            Stage::Behind(behind) => behind.refuse(alloc, number, code, out),
        }
    }

    fn step(
        &mut self,
        alloc: Global,
        number: u64,
        line: &[u8],
        out: &mut Out,
    ) -> Result<Option<End>, AllocError> {
        if let Stage::Behind(behind) = &mut self.stage {
            return behind.step(alloc, number, line, out);
        }
        self.step_rarely(alloc, number, line, out)
    }

    fn close(&mut self, alloc: Global, count: u64, out: &mut Out) -> Result<End, AllocError> {
        match &mut self.stage {
            Stage::Model(form, reader) => {
                let json = form.is_json();
                refuse_code_to(alloc, json, reader.model(), count, ENDS_EARLY, out)?;
                Ok(End::Refused)
            }
            Stage::Behind(behind) => behind.close(alloc, count, out),
        }
    }
}
