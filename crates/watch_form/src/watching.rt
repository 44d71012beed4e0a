//! The lines behind an accepted model, which say what was commanded and observed.

ghost use Rattle.std.specs.Prelude.{◌≡◌, ◌++◌, ◌+◌, ◌<◌, ◌≤◌, ◌^◌, All, IfOk, IfSome, OnOk};
ghost use Rattle.std.specs.Option.{is_some};
ghost use Rattle.cca_base.specs.Prelude.{Answers, HasValue};
ghost use Rattle.model_form.specs.FormStates.{form_first};
ghost use Rattle.trajectory_estimator.specs.Asked.{entry_of};
ghost use Rattle.trajectory_estimator.specs.Tracked.{answer_of};
ghost use Rattle.watch_lines.specs.WatchEvents.{FitsWatch, IsWatchEventOf};
ghost use Rattle.watch_form.specs.Calls.{nothing_pending};
ghost use Rattle.watch_form.specs.WatchMachine.{TicksTo, observed, restarted};

use crate::told::told;
use cca_base::{List, Model, Name, Pair, Seen, Stop, Subject, VarSet};
use formula_syntax::NamedModel;
use indexmap::IndexMap;
use line_forms::{LineForm, Lines, OpensLines, placed};
use line_machine::{End, Out};
use model_form::{Accepted, MAX_LINE, OfLines, WithModel};
use script_reader::Context;
use std::alloc::{AllocError, Global};
use std::mem;
use trace_text::command_places;
use trajectory_estimator::{Record, Tracker, Window};
use watch_lines::{WatchContext, WatchEvent, read_watch_line};

/// An accepted model's tracker, its names, the places of its commands, what is pending, and how many ticks were made.
#[derive(Drop)]
pub struct Watching {
    names: IndexMap<Name, Subject>,
    places: IndexMap<Name, usize>,
    tracker: Tracker,
    pending: Record,
    ticks: u64,
}

impl std::marker::Model for Watching {
    ghost use Rattle.std.specs.Prelude.{◌≡◌};
    ghost use Rattle.cca_base.specs.Prelude.{model_codes};
    ghost use Rattle.formula_syntax.specs.Lookups.{NamesFit};
    ghost use Rattle.model_syntax.specs.Reader.{NumbersFit};
    ghost use Rattle.trajectory_estimator.specs.Asked.{AreValues, entry_of};
    ghost use Rattle.watch_form.specs.WatchMachine.{WatchState};

    ghost Value = { WatchState };

    ghost coded = { Prim.hlevel model_codes };

    ghost view = { λ w. record {
      compiled = w.tracker.compiled;
      state = w.tracker.state;
      pending = entry_of w.pending;
    } };

    ghost invariant = { λ w. NamesFit w.names w.tracker.compiled.model
        × NumbersFit w.places w.tracker.compiled.model.commands
        × AreValues w.tracker.compiled.model (entry_of w.pending)
        × (w.ticks ≡ w.tracker.state.ticks) };
}

/// Nothing pending, which takes no memory.
fn nothing_pending(alloc: Global) -> Record
    ensures { entry_of result ≡ nothing_pending }
{
    Record {
        command: None,
        seen: Seen {
            pairs: List::new(alloc),
        },
    }
}

/// The pairs of both, one behind the other. The error is out of memory.
fn joined(alloc: Global, first: &[Pair], second: &[Pair]) -> Result<List<Pair>, AllocError>
    ensures { IfOk result (λ both. both ≡ first.now ++ second.now) }
{
    let mut both = Vec::new(alloc);
    both.extend_from_slice(first)?;
    both.extend_from_slice(second)?;
    Ok(List::of(both))
}

impl OpensLines<WatchEvent> for Watching {
    ghost use Rattle.watch_form.specs.WatchMachine.{watch_first};

    ghost first = { watch_first };

    fn open(alloc: Global, accepted: Accepted) -> Result<Watching, AllocError> {
        let (compiled, names) = accepted.into_parts();
        let places = command_places(alloc, compiled.model())?;
        let tracker = Tracker::open(alloc, compiled)?;
        Ok(Watching {
            names,
            places,
            tracker,
            pending: nothing_pending(alloc),
            ticks: 0,
        })
    }
}

impl Watching {
    /// What a line says, with what is pending.
    fn event(&self, alloc: Global, line: &[u8]) -> Result<Option<WatchEvent>, Stop>
        ensures answer { Answers result (IsWatchEventOf self.now.compiled.model
            self.now.pending.seen (is_some self.now.pending.command) line.now) }
        ensures fits { IfOk result (λ event. IfSome event (FitsWatch self.now.compiled.model
            self.now.pending.seen (is_some self.now.pending.command))) }
    {
        let model = self.tracker.compiled().model();
        let script = Context {
            model: NamedModel::new(model, &self.names),
            pending: self.pending.seen.pairs.as_slice(),
            mirrored: VarSet::empty(),
        };
        let context = WatchContext {
            script,
            places: &self.places,
            sent: self.pending.command.is_some(),
        };
        read_watch_line(alloc, line, &context)
    }

    /// The pairs are pending too. The error is out of memory.
    fn observe(&mut self, alloc: Global, pairs: &[Pair]) -> Result<(), AllocError>
        requires { All (λ p. HasValue self.old.compiled.model p.item p.value) pairs.now }
        ensures { OnOk result (self.new ≡ observed self.old pairs.now) }
    {
        let pending = self.pending.seen.pairs.as_slice();
        self.pending.seen.pairs = joined(alloc, pending, pairs)?;
        Ok(())
    }

    /// The tracker is as at the start, and nothing is pending. The error is out of memory.
    fn restart(&mut self, alloc: Global) -> Result<(), AllocError>
        ensures { OnOk result (self.new ≡ restarted self.old) }
    {
        self.tracker.reset()?;
        self.pending = nothing_pending(alloc);
        Ok(())
    }

    /// Makes a tick with what is pending. The error is out of memory.
    fn tick(&mut self, alloc: Global) -> Result<Window, AllocError>
        requires room { self.old.state.ticks + 1 < 2 ^ 64 }
        ensures { IfOk result (λ answer. TicksTo self.old self.new (answer_of answer)) }
    {
        let entry = mem::replace(&mut self.pending, nothing_pending(alloc));
        let answer = self.tracker.tick(entry)?;
        self.ticks += 1;
        Ok(answer)
    }
}

impl LineForm<WatchEvent> for Watching {
    ghost use Rattle.watch_form.specs.WatchMachine.{watch_lines};
    ghost use Rattle.watch_form.specs.OneStep.{said_one, serves_one, awaits_on};

    ghost means = { watch_lines };

    ghost said_one = { said_one };

    ghost serves_one = { serves_one };

    ghost steady_refusals = { λ x n h. absurd h };

    ghost awaits_on = { awaits_on };

    fn model(&self) -> &Model {
        self.tracker.compiled().model()
    }

    fn is_json(&self) -> bool {
        false
    }

    fn limit(&self) -> usize {
        MAX_LINE
    }

    fn skips_empty(&self) -> bool {
        true
    }

    fn place(&self, _alloc: Global) -> Result<WatchEvent, AllocError> {
        Ok(WatchEvent::Tick)
    }

    fn read(&self, alloc: Global, line: &[u8], item: &mut WatchEvent) -> Result<bool, Stop> {
        Ok(placed(self.event(alloc, line)?, item))
    }

    fn serve(
        &mut self,
        alloc: Global,
        _number: u64,
        item: &mut WatchEvent,
        out: &mut Out,
    ) -> Result<Option<End>, AllocError> {
        match item {
            WatchEvent::Sent(command) => {
                self.pending.command = Some(*command);
                Ok(None)
            }
            WatchEvent::Observe(pairs) => {
                self.observe(alloc, pairs.as_slice())?;
                Ok(None)
            }
            WatchEvent::Reset => {
                self.restart(alloc)?;
                Ok(None)
            }
            WatchEvent::Tick => {
                let answer = self.tick(alloc)?;
                let model = self.tracker.compiled().model();
                told(model, self.ticks, &answer, out)?;
                Ok(None)
            }
        }
    }

    fn close(&mut self, _alloc: Global, _count: u64, _out: &mut Out) -> Result<End, AllocError> {
        Ok(End::Ended)
    }
}

/// The form `watch`: behind the model stand lines that say what was commanded and observed.
pub type WatchMachine = WithModel<OfLines, Lines<Watching, WatchEvent>>;

/// The form before the first line.
pub fn open_watch(alloc: Global) -> Result<WatchMachine, AllocError>
    ensures { IfOk result (λ w. w ≡ form_first (record {})) }
{
    WithModel::open(alloc, OfLines)
}
