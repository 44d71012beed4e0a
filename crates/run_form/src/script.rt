//! The script behind an accepted model, made line by line.

ghost use Rattle.std.specs.Prelude.{◌≡◌, ◌+◌, ◌-◌, ◌<◌, ◌^◌, OnOk, option_to_list};
ghost use Rattle.cca_base.specs.Prelude.{MayCome, Promising};
ghost use Rattle.byte_buffer.specs.Outs.{Appended, HasRoomLeft, IsFront};
ghost use Rattle.line_machine.specs.Steady.{TookNone};
ghost use Rattle.run_form.specs.Summaries.{AreFewer, added, counts_of};
ghost use Rattle.run_form.specs.TickTexts.{EventText};
ghost use Rattle.run_form.specs.declared.notation.Notation.TheVariants.{Words};
ghost use Rattle.trace_laws.specs.Events.{Acts};
ghost use Rattle.trace_text.specs.ReportRefs.{most_bytes};

use crate::counts::{Counts, summary};
use crate::notation::{Notation, is_json};
use crate::run::OpensScript;
use crate::told::told;
use cca_base::{Model, Name, Stop, Subject};
use executive_loop::SteadyExecutive;
use indexmap::IndexMap;
use line_forms::LineForm;
use line_machine::{End, Out};
use model_form::{Accepted, MAX_LINE};
use std::alloc::{AllocError, Global};
use steady_events::EventPlace;

/// An accepted model, its names, and its executive.
#[derive(Drop)]
pub struct Script {
    notation: Notation,
    names: IndexMap<Name, Subject>,
    executive: SteadyExecutive,
    counts: Counts,
}

impl std::marker::Model for Script {
    ghost use Rattle.formula_syntax.specs.Lookups.{NamesFit};
    ghost use Rattle.run_form.specs.ScriptMachine.{ScriptState};
    ghost use Rattle.cca_base.specs.Prelude.{model_codes};

    ghost Value = { ScriptState };

    ghost coded = { Prim.hlevel model_codes };

    ghost view = { λ s. record { notation = s.notation; compiled = s.executive.compiled; state = s.executive.state; counts = s.counts } };

    ghost invariant = { λ s. NamesFit s.names s.executive.compiled.model };
}

/// Makes an event, counts its tick, and appends what is printed of it.
fn make(
    alloc: Global,
    notation: Notation,
    executive: &mut SteadyExecutive,
    counts: &mut Counts,
    event: &EventPlace,
    out: &mut Out,
) -> Result<(), AllocError>
    requires may_come { MayCome executive.old.compiled.model executive.old.state.pending
        executive.old.state.mirrored event.now }
    requires room { executive.old.state.ticks + 1 < 2 ^ 64 }
    requires few { AreFewer (2 ^ 64 - 1) counts.old }
    ensures acts { OnOk result ((report : _)
        × Acts executive.old.compiled (Promising executive.old.compiled) executive.old.state
        event.now executive.new.state report
        × Appended (EventText notation executive.old.compiled executive.old.state report)
        out.old out.new
        × (counts.new ≡ added counts.old (counts_of (option_to_list report)))) }
    ensures compiled { executive.new.compiled ≡ executive.old.compiled }
    ensures front { IsFront out.old out.new }

    // In words it takes no memory where there is room for any report of the model, and can't fail.
    ensures steady { notation ≡ Words →
        HasRoomLeft out.old (most_bytes executive.old.compiled.model) →
        TookNone out.old result out.new }
{
    match executive.act(event.borrowed()) {
        Some(made) => {
            told(alloc, notation, executive, made, out)?;
            counts.count(made);
            Ok(())
        }
        None => Ok(()),
    }
}

impl OpensScript<EventPlace> for Script {
    ghost use Rattle.run_form.specs.ScriptMachine.{script_first};

    ghost first = { script_first };

    fn open(alloc: Global, notation: Notation, accepted: Accepted) -> Result<Script, AllocError> {
        let (compiled, names) = accepted.into_parts();
        let executive = SteadyExecutive::open(alloc, compiled)?;
        Ok(Script {
            notation,
            names,
            executive,
            counts: Counts::none(),
        })
    }
}

impl LineForm<EventPlace> for Script {
    ghost use Rattle.run_form.specs.ScriptMachine.{script_lines};
    ghost use Rattle.run_form.specs.OneScript.{said_one, serves_one, awaits_on, steady_refusals};

    ghost means = { script_lines };

    ghost said_one = { said_one };

    ghost serves_one = { serves_one };

    ghost steady_refusals = { steady_refusals };

    ghost awaits_on = { awaits_on };

    fn model(&self) -> &Model {
        self.executive.compiled().model()
    }

    fn is_json(&self) -> bool {
        is_json(self.notation)
    }

    fn limit(&self) -> usize {
        MAX_LINE
    }

    #[tactic(auto, unfolding(script_reader::specs::EventLines::event_line))]
    fn skips_empty(&self) -> bool {
        // (an executive's model is an accepted one)
        let _compiled = self.executive.compiled();
        true
    }

    fn place(&self, alloc: Global) -> Result<EventPlace, AllocError> {
        EventPlace::new(alloc)
    }

    #[tactic(auto, unfolding(script_reader::specs::EventLines::event_line))]
    fn read(&self, _alloc: Global, line: &[u8], item: &mut EventPlace) -> Result<bool, Stop> {
        item.read(&self.executive, &self.names, true, line)
    }

    fn serve(
        &mut self,
        alloc: Global,
        _number: u64,
        item: &mut EventPlace,
        out: &mut Out,
    ) -> Result<Option<End>, AllocError> {
        make(
            alloc,
            self.notation,
            &mut self.executive,
            &mut self.counts,
            item,
            out,
        )?;
        Ok(None)
    }

    fn close(&mut self, alloc: Global, _count: u64, out: &mut Out) -> Result<End, AllocError> {
        if let Notation::Summary(seed) = self.notation {
            out.push(&summary(alloc, seed, &self.counts)?)?;
        }
        Ok(End::Ended)
    }
}
