//! The lines behind an accepted model: a control program, and the events behind it.

ghost use Rattle.std.specs.Prelude.{◌≡◌, ◌+◌, None, IfOk, IfSome, OnOk};
ghost use Rattle.cca_base.specs.Prelude.{Answers};
ghost use Rattle.formula_syntax.specs.Lookups.{NamesFit};
ghost use Rattle.line_machine.specs.Next.{next_of};
ghost use Rattle.byte_buffer.specs.Outs.{Appended, IsFront};
ghost use Rattle.model_form.specs.FormStates.{form_first};
ghost use Rattle.control_syntax.specs.Kept.{MayRunSoFar};
ghost use Rattle.program_form.specs.ProgramMachine.{program_lines};
ghost use Rattle.program_form.specs.Stages.{ReadsTo, RunsWell, begun};
ghost use Rattle.program_form.specs.declared.item.ProgramItem.TheVariants.{Reads};

use crate::item::{ItemPlace, ItemRef};
use crate::running::Running;
use crate::sequenced::make;
use cca_base::codes::ENDS_EARLY;
use cca_base::{Model, Name, Stop, Subject};
use control_program::{Runner, TurnRoom};
use control_syntax::{ProgramEnd, ProgramReader};
use executive_loop::SteadyExecutive;
use formula_syntax::NamedModel;
use indexmap::IndexMap;
use line_forms::{LineForm, Lines, OpensLines};
use line_machine::{End, Out};
use model_form::{Accepted, MAX_LINE, OfLines, WithModel, refuse_code_to, refuse_stop_to};
use std::alloc::{AllocError, Global};
use std::mem;

/// How far the program has come.
#[derive(Drop)]
enum Stage {
    /// Its lines are being read.
    Reading(ProgramReader),
    /// It was read whole, and runs.
    Running(Running),
}

/// An accepted model's executive, its names, and the program that sets its goals.
#[derive(Drop)]
pub struct Programmed {
    names: IndexMap<Name, Subject>,
    executive: SteadyExecutive,
    stage: Stage,
}

impl std::marker::Model for Programmed {
    ghost use Rattle.control_program.specs.Codes.{control_coded};
    ghost use Rattle.cca_base.specs.Prelude.{model_codes};
    ghost use Rattle.formula_syntax.specs.Lookups.{NamesFit};
    ghost use Rattle.program_form.specs.ProgramMachine.{ProgramState};
    ghost use Rattle.control_syntax.specs.contracts.block.Block as blocks;
    ghost use Rattle.control_syntax.specs.contracts.part.Part as parts;
    ghost use Rattle.program_form.specs.Stages.{FitsStage, HasRoom, stage_of};

    ghost Value = { ProgramState };

    ghost coded = { Prim.hlevel (model_codes, control_coded, parts.the_row.coded, blocks.the_row.coded) };

    ghost view = { λ p. record {
      compiled = p.executive.compiled;
      state = p.executive.state;
      stage = stage_of p.stage;
    } };

    ghost invariant = { λ p. NamesFit p.names p.executive.compiled.model
        × FitsStage p.executive.compiled.model (stage_of p.stage)
        × HasRoom p.executive.compiled.model p.stage };
}

/// Reads a line of the program; its runner comes exactly where the line ends it.
fn read_program(
    alloc: Global,
    model: &NamedModel,
    reader: &mut ProgramReader,
    line: &[u8],
) -> Result<Option<Runner>, Stop>
    requires going { reader.old.whole ≡ None }
    requires fits { MayRunSoFar model.now reader.old }
    ensures answer { Answers result (λ said.
        ReadsTo model.now reader.old line.now said reader.new) }
    ensures fits { MayRunSoFar model.now reader.new }
{
    match reader.line_named(model, line)? {
        ProgramEnd::Going => Ok(None),
        ProgramEnd::Whole => {
            let read = mem::replace(reader, ProgramReader::open(alloc)?);
            Ok(Some(Runner::open(alloc, read.finish())?))
        }
    }
}

impl OpensLines<ItemPlace> for Programmed {
    ghost use Rattle.program_form.specs.ProgramMachine.{program_first};

    ghost first = { program_first };

    fn open(alloc: Global, accepted: Accepted) -> Result<Programmed, AllocError> {
        let (compiled, names) = accepted.into_parts();
        let reader = ProgramReader::open(alloc)?;
        let executive = SteadyExecutive::open(alloc, compiled)?;
        Ok(Programmed {
            names,
            executive,
            stage: Stage::Reading(reader),
        })
    }
}

impl Programmed {
    /// Begins the program, where it is whole. The error is out of memory.
    fn begin(&mut self, alloc: Global, runner: Option<Runner>) -> Result<(), AllocError>
        requires well { IfSome runner (RunsWell self.old.compiled.model) }
        ensures { OnOk result (self.new ≡ begun runner self.old) }
    {
        if let Some(runner) = runner {
            let model = self.executive.compiled().model();
            let room = TurnRoom::of(alloc, model, self.executive.worlds(), &runner)?;
            self.stage = Stage::Running(Running { runner, room });
        }
        Ok(())
    }

    /// Takes a line of the program: more of it is read, and it begins where it is whole; or the line is refused. The error is out of memory.
    fn take_line(
        &mut self,
        alloc: Global,
        number: u64,
        line: &[u8],
        out: &mut Out,
    ) -> Result<Option<End>, AllocError>
        requires fits { program_lines.fits self.old (Reads line.now) }
        requires turn { program_lines.awaits self.old number }
        ensures serves { IfOk result (λ end. Appended (program_lines.serves
            (Reads line.now) self.old number (next_of self.new end)) out.old out.new) }
        ensures turn { IfOk result (λ end. end ≡ None →
            program_lines.awaits self.new (number + 1)) }
        ensures front { IsFront out.old out.new }
    {
        match &mut self.stage {
            Stage::Reading(reader) => {
                let model = NamedModel::new(self.executive.compiled().model(), &self.names);
                match read_program(alloc, &model, reader, line) {
                    Ok(runner) => {
                        self.begin(alloc, runner)?;
                        Ok(None)
                    }
                    Err(stop) => {
                        refuse_stop_to(alloc, false, model.model(), number, &stop, out)?;
                        Ok(Some(End::Refused))
                    }
                }
            }
            Stage::Running(_) => unreachable!(),
        }
    }
}

// What is said and done stands in `program_lines` (specs/ProgramMachine.antt).
impl LineForm<ItemPlace> for Programmed {
    ghost use Rattle.program_form.specs.OneStep.{said_one, serves_one, awaits_on, steady_refusals};

    ghost means = { program_lines };

    ghost said_one = { said_one };

    ghost serves_one = { serves_one };

    ghost steady_refusals = { steady_refusals };

    ghost awaits_on = { awaits_on };

    fn model(&self) -> &Model {
        self.executive.compiled().model()
    }

    fn is_json(&self) -> bool {
        false
    }

    fn limit(&self) -> usize {
        MAX_LINE
    }

    #[tactic(auto, unfolding(crate::specs::Sequences::event_line))]
    fn skips_empty(&self) -> bool {
        // (an executive's model is an accepted one)
        let _compiled = self.executive.compiled();
        matches!(self.stage, Stage::Running(_))
    }

    fn place(&self, alloc: Global) -> Result<ItemPlace, AllocError> {
        ItemPlace::new(alloc)
    }

    fn read(&self, alloc: Global, line: &[u8], item: &mut ItemPlace) -> Result<bool, Stop> {
        match &self.stage {
            Stage::Reading(_) => {
                item.keep(alloc, line)?;
                Ok(true)
            }
            Stage::Running(_) => item.read(&self.executive, &self.names, line),
        }
    }

    fn serve(
        &mut self,
        alloc: Global,
        number: u64,
        item: &mut ItemPlace,
        out: &mut Out,
    ) -> Result<Option<End>, AllocError> {
        match item.get() {
            ItemRef::Reads(line) => self.take_line(alloc, number, line, out),
            ItemRef::Makes(event) => match &mut self.stage {
                Stage::Running(running) => {
                    make(&mut self.executive, running, event.borrowed(), out)?;
                    Ok(None)
                }
                Stage::Reading(_) => unreachable!(),
            },
        }
    }

    fn close(&mut self, alloc: Global, count: u64, out: &mut Out) -> Result<End, AllocError> {
        match &self.stage {
            Stage::Reading(_) => {
                let model = self.executive.compiled().model();
                refuse_code_to(alloc, false, model, count, ENDS_EARLY, out)?;
                Ok(End::Refused)
            }
            Stage::Running(_) => Ok(End::Ended),
        }
    }
}

/// The form `program`: behind the model stands a control program, and behind that its events.
pub type ProgramMachine = WithModel<OfLines, Lines<Programmed, ItemPlace>>;

/// The form before the first line.
pub fn open_program(alloc: Global) -> Result<ProgramMachine, AllocError>
    ensures { IfOk result (λ w. w ≡ form_first (record {})) }
{
    WithModel::open(alloc, OfLines)
}
