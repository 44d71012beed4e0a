//! The script behind an accepted model: its events' lines are printed as they stand.

ghost use Rattle.std.specs.Prelude.{◌≡◌, ◌++◌, ◌∷◌, [], OnOk, OnErr};
ghost use Rattle.cca_base.specs.Prelude.{MayCome};
ghost use Rattle.byte_buffer.specs.Outs.{IsFront};
ghost use Rattle.trace_laws.specs.Events.{PendingAfter, mirrored_after};

use crate::migrate::OpensSecond;
use cca_base::{Event, List, Model, Name, Stop, Subject};
use indexmap::IndexMap;
use line_forms::{LineForm, kept_line};
use line_machine::{End, Out};
use model_form::MAX_LINE;
use script_reader::{NamedModel, read_named_event};
use std::alloc::{AllocError, Global};
use trace_laws::Known;

/// An event, and its line as it stands, without its LF.
#[derive(Debug, Drop)]
pub struct KeptLine {
    pub event: Event,
    pub line: List<u8>,
}

/// A model of version 2, its names, and what bears on which events may come next.
#[derive(Drop)]
pub struct ScriptInSecond {
    model: Model,
    names: IndexMap<Name, Subject>,
    known: Known,
}

impl std::marker::Model for ScriptInSecond {
    ghost use Rattle.cca_base.specs.Prelude.{model_codes, IsRising};
    ghost use Rattle.formula_syntax.specs.Lookups.{NamesFit};
    ghost use Rattle.migrate_form.specs.MigrateMachine.{ScriptSoFar};

    ghost Value = { ScriptSoFar };

    ghost coded = { Prim.hlevel model_codes };

    ghost view = { λ s. record { model = s.model; pending = s.known.pending.pairs; mirrored = s.known.mirrored } };

    ghost invariant = { λ s. NamesFit s.names s.model × IsRising s.known.pending.pairs };
}

/// Appends the line with its LF.
fn print_line(line: &[u8], out: &mut Out) -> Result<(), AllocError>
    ensures text { OnOk result (out.new.bytes ≡ out.old.bytes ++ (line.now ++ 10 ∷ [])) }
    ensures front { IsFront out.old out.new }
{
    out.push(line)?;
    out.push(b"\n")
}

impl OpensSecond<KeptLine> for ScriptInSecond {
    ghost use Rattle.migrate_form.specs.MigrateMachine.{script_first};

    ghost first = { script_first };

    fn open(alloc: Global, model: Model, names: IndexMap<Name, Subject>) -> ScriptInSecond {
        ScriptInSecond {
            model,
            names,
            known: Known::nothing(alloc),
        }
    }
}

impl ScriptInSecond {
    /// Follows an event. The error is out of memory, and then the script is as it was.
    fn follow(&mut self, alloc: Global, event: &Event) -> Result<(), AllocError>
        requires { MayCome self.old.model self.old.pending self.old.mirrored event.now }
        ensures ok { OnOk result ((after : _) × PendingAfter self.old.pending event.now after
            × (self.new ≡ record {
              model = self.old.model;
              pending = after;
              mirrored =
                  mirrored_after self.old.mirrored event.now;
            })) }
        ensures err { OnErr result (self.new ≡ self.old) }
    {
        let known = self.known.after(alloc, &self.model, event)?;
        self.known = known;
        Ok(())
    }
}

impl LineForm<KeptLine> for ScriptInSecond {
    ghost use Rattle.migrate_form.specs.MigrateMachine.{second_lines};
    ghost use Rattle.migrate_form.specs.OneStep.{said_one, serves_one};

    ghost means = { second_lines };

    ghost said_one = { said_one };

    ghost serves_one = { serves_one };

    ghost steady_refusals = { λ x n h. absurd h };

    ghost awaits_on = { λ x n h. h };

    fn model(&self) -> &Model {
        &self.model
    }

    fn is_json(&self) -> bool {
        false
    }

    fn limit(&self) -> usize {
        MAX_LINE
    }

    #[tactic(auto, unfolding(script_reader::specs::EventLines::event_line))]
    fn skips_empty(&self) -> bool {
        true
    }

    fn place(&self, alloc: Global) -> Result<KeptLine, AllocError> {
        Ok(KeptLine {
            event: Event::Tick,
            line: List::new(alloc),
        })
    }

    fn read(&self, alloc: Global, line: &[u8], item: &mut KeptLine) -> Result<bool, Stop> {
        let model = NamedModel::new(&self.model, &self.names);
        let Known { pending, mirrored } = &self.known;
        let Some(event) = read_named_event(alloc, line, model, pending, *mirrored)? else {
            return Ok(false);
        };
        let line = kept_line(alloc, line)?;
        *item = KeptLine { event, line };
        Ok(true)
    }

    fn serve(
        &mut self,
        alloc: Global,
        _number: u64,
        item: &mut KeptLine,
        out: &mut Out,
    ) -> Result<Option<End>, AllocError> {
        print_line(item.line.as_slice(), out)?;
        self.follow(alloc, &item.event)?;
        Ok(None)
    }

    fn close(&mut self, _alloc: Global, _count: u64, _out: &mut Out) -> Result<End, AllocError> {
        Ok(End::Ended)
    }
}
