//! An executive that hands out lists of its own.

ghost use Rattle.std.specs.Prelude.{◌≡◌, ◌↔◌, ◌+◌, ◌<◌, ◌^◌, [], None, IsSome, IfOk, OnErr};
ghost use Rattle.std.specs.Option.{option_map};
ghost use Rattle.cca_base.specs.Prelude.{start, MayCome, Promising};
ghost use Rattle.trace_laws.specs.Events.{Acts, IsTick};
ghost use Rattle.trace_laws.specs.Tables.{TablesAfter};
ghost use Rattle.consistency.specs.Worlds.{AreWorldsOf};
ghost use Rattle.executive_loop.specs.Covering.{base_of, covers, AreCoveringAfter};
ghost use Rattle.executive_loop.specs.Parts.{IsExecutive, SeenAfter};

use crate::event_ref::EventRef;
use crate::shown::{Copies, Lists};
use crate::steady::SteadyExecutive;
use cca_base::{Compiled, Event, Goal, Seen, State, TickReport, VarSet};
use consistency::Worlds;
use policy_tables::Tables;
use std::alloc::{AllocError, Global};
use std::marker::Model;

/// An executive of a compiled model. Its pending observations, its goal and what it saw last can be looked at as lists, which are
/// copied at each event: where events are to take no memory, `SteadyExecutive` is the same without them.
#[derive(Drop)]
pub struct Executive {
    alloc: Global,
    steady: SteadyExecutive,
    lists: Lists,
}

impl Model for Executive {
    ghost use Rattle.cca_base.specs.Prelude.{model_codes};
    ghost use Rattle.executive_loop.specs.Copied.{AreListsOf};
    ghost use Rattle.executive_loop.specs.Parts.{ExecutiveParts};

    ghost Value = { ExecutiveParts };

    ghost coded = { Prim.hlevel model_codes };

    ghost view = { λ e. e.steady };

    ghost invariant = { λ e. AreListsOf e.steady e.lists };
}

impl Executive {
    /// An executive at the start. The error is out of memory, and the compiled model is gone then.
    pub fn open(alloc: Global, compiled: Compiled) -> Result<Executive, AllocError>
        ensures { IfOk result (λ e.
            e ≡ record {
              compiled = compiled;
              state = start compiled.model 0;
              last_seen = [];
              tables = None;
            }) }
    {
        let steady = SteadyExecutive::open(alloc, compiled)?;
        Ok(Executive {
            alloc,
            steady,
            lists: Lists::empty(alloc),
        })
    }

    /// Makes one event. A report comes exactly for a tick. The error is out of memory.
    pub fn event(&mut self, event: &Event) -> Result<Option<TickReport>, AllocError>
        requires may_come { MayCome self.old.compiled.model self.old.state.pending
            self.old.state.mirrored event.now }
        requires room { self.old.state.ticks + 1 < 2 ^ 64 }
        ensures acts { IfOk result (λ report.
            Acts self.old.compiled (Promising self.old.compiled) self.old.state event.now
            self.new.state report) }
        ensures report { IfOk result (λ report. IsSome report ↔ IsTick event.now) }
        ensures tables { IfOk result (λ report.
            TablesAfter base_of covers self.old.state.goal self.old.tables event.now report
            self.new.tables) }
        ensures covers { IfOk result (AreCoveringAfter self.new.tables self.new.state.estimate) }
        ensures seen { IfOk result (λ report.
            SeenAfter self.old.compiled.model self.old.state self.old.last_seen event.now report
            self.new.last_seen) }
        ensures compiled { self.new.compiled ≡ self.old.compiled }
        ensures err { OnErr result (self.new ≡ self.old) }
    {
        let copies = Copies::new(self.alloc)?;
        let made = self.steady.act(EventRef::of(event));
        let (lists, report) = copies.filled(&self.steady, made);
        self.lists = lists;
        Ok(report)
    }

    /// The compiled model.
    pub fn compiled(&self) -> &Compiled
        ensures value { result.now ≡ self.now.compiled }
        ensures executive { IsExecutive self.now }
    {
        self.steady.compiled()
    }

    /// The clauses of the model's rules.
    pub fn worlds(&self) -> &Worlds
        ensures { AreWorldsOf self.now.compiled.model result.now }
    {
        self.steady.worlds()
    }

    /// The goal in force, if there is one.
    pub fn goal(&self) -> Option<&Goal>
        ensures { option_map (λ g. g.now.pairs) result ≡ self.now.state.goal }
    {
        self.lists.goal.as_ref()
    }

    /// The tables, if there are any.
    pub fn tables(&self) -> Option<&Tables>
        ensures value { option_map (λ t. t.now) result ≡ self.now.tables }
        ensures executive { IsExecutive self.now }
    {
        self.steady.tables()
    }

    /// What the next tick observes besides the mirrored variables.
    pub fn pending(&self) -> &Seen
        ensures { result.now.pairs ≡ self.now.state.pending }
    {
        &self.lists.pending
    }

    /// The mirrored variables.
    pub fn mirrored(&self) -> VarSet
        ensures { result ≡ self.now.state.mirrored }
    {
        self.steady.mirrored()
    }

    /// What the last tick observed, the mirrored variables with it.
    pub fn last_seen(&self) -> &Seen
        ensures { result.now.pairs ≡ self.now.last_seen }
    {
        &self.lists.last_seen
    }

    /// Whether the last tick since the start or the last reset was unexplained, or came while holding.
    pub fn holding(&self) -> bool
        ensures { result ≡ self.now.state.holding }
    {
        self.steady.holding()
    }

    /// The last estimate.
    pub fn estimate(&self) -> &State
        ensures { result.now.modes ≡ self.now.state.estimate }
    {
        self.steady.estimate()
    }

    /// The state of the plant.
    pub fn plant(&self) -> &State
        ensures { result.now.modes ≡ self.now.state.plant }
    {
        self.steady.plant()
    }
}
