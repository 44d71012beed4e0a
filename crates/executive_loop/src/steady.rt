//! The executive of a compiled model, which takes all its memory when it is opened.

ghost use Rattle.std.specs.Prelude.{◌≡◌, ◌↔◌, ◌+◌, ◌<◌, ◌≤◌, ◌^◌, [], None, length, IsSome, IfOk, IfSome};
ghost use Rattle.cca_base.specs.declared.limits.TheConstants.{MAX_COMPONENTS, MAX_VARIABLES};
ghost use Rattle.std.specs.Option.{option_map};
ghost use Rattle.cca_base.specs.Prelude.{start, MayCome, Promising};
ghost use Rattle.trace_laws.specs.Events.{Acts, IsTick};
ghost use Rattle.trace_laws.specs.Tables.{TablesAfter};
ghost use Rattle.consistency.specs.Worlds.{AreWorldsOf};
ghost use Rattle.executive_loop.specs.Borrowed.{event_read, report_with};
ghost use Rattle.executive_loop.specs.Covering.{base_of, covers, AreCoveringAfter};
ghost use Rattle.executive_loop.specs.Parts.{IsExecutive, SeenAfter};

use crate::event_ref::EventRef;
use crate::kept_standing::KeptStanding;
use crate::made::Made;
use crate::tick::make_tick;
use crate::workspace::Workspace;
use cca_base::{Compiled, Pair, State, VarSet};
use consistency::Worlds;
use policy_tables::Tables;
use std::alloc::{AllocError, Global};
use std::marker::Model;
use std::rc::Rc;

/// An executive of a compiled model. Once it is open, no event takes memory, and so none can fail.
#[derive(Drop)]
pub struct SteadyExecutive {
    alloc: Global,
    compiled: Rc<Compiled>,
    standing: KeptStanding,
    workspace: Workspace,
}

impl Model for SteadyExecutive {
    ghost use Rattle.executive_loop.specs.Covering.{tables_in};
    ghost use Rattle.executive_loop.specs.Parts.{ExecutiveParts, IsExecutive, IsWorkspace};

    ghost Value = { ExecutiveParts };

    ghost use Rattle.cca_base.specs.Prelude.{model_codes};

    ghost coded = { Prim.hlevel model_codes };

    ghost view = { λ e. record {
      compiled = e.compiled.value;
      state = e.standing;
      last_seen = e.workspace.seen.items;
      tables = tables_in e.workspace.policy;
    } };

    ghost invariant = { λ e. IsWorkspace e.compiled.value e.workspace × IsExecutive (record {
      compiled = e.compiled.value;
      state = e.standing;
      last_seen = e.workspace.seen.items;
      tables = tables_in e.workspace.policy;
    }) };
}

impl SteadyExecutive {
    /// An executive at the start. The error is out of memory, and the compiled model is gone then.
    pub fn open(alloc: Global, compiled: Compiled) -> Result<SteadyExecutive, AllocError>
        ensures { IfOk result (λ e.
            e ≡ record {
              compiled = compiled;
              state = start compiled.model 0;
              last_seen = [];
              tables = None;
            }) }
    {
        let standing = KeptStanding::start(alloc, compiled.model())?;
        let compiled = Rc::new(alloc, compiled)?;
        let workspace = Workspace::of(alloc, &compiled, &standing.estimate)?;
        Ok(SteadyExecutive {
            alloc,
            compiled,
            standing,
            workspace,
        })
    }

    /// Makes one event. What a tick came to is answered exactly for a tick, and its estimate is the last one then. It takes no
    /// memory.
    pub fn act(&mut self, event: EventRef<'_>) -> Option<Made>
        requires may_come { MayCome self.old.compiled.model self.old.state.pending
            self.old.state.mirrored (event_read event) }
        requires room { self.old.state.ticks + 1 < 2 ^ 64 }
        ensures acts { Acts self.old.compiled (Promising self.old.compiled) self.old.state
            (event_read event.entry) self.new.state
            (option_map (report_with self.new.state.estimate) result) }
        ensures made { IsSome result ↔ IsTick (event_read event.entry) }
        ensures tables { TablesAfter base_of covers self.old.state.goal self.old.tables
            (event_read event.entry) (option_map (report_with self.new.state.estimate) result)
            self.new.tables }
        ensures covers { AreCoveringAfter self.new.tables self.new.state.estimate
            (option_map (report_with self.new.state.estimate) result) }
        ensures seen { SeenAfter self.old.compiled.model self.old.state self.old.last_seen
            (event_read event.entry) (option_map (report_with self.new.state.estimate) result)
            self.new.last_seen }
        ensures compiled { self.new.compiled ≡ self.old.compiled }
    {
        if let EventRef::Tick = event {
            return Some(make_tick(
                self.alloc,
                &self.compiled,
                &mut self.standing,
                &mut self.workspace,
            ));
        }
        self.standing.change(&self.compiled, event);
        if let EventRef::Reset = event {
            self.workspace.forget();
        }
        None
    }

    /// The compiled model.
    pub fn compiled(&self) -> &Compiled
        ensures value { result.now ≡ self.now.compiled }
        ensures executive { IsExecutive self.now }
    {
        &self.compiled
    }

    /// The clauses of the model's rules.
    pub fn worlds(&self) -> &Worlds
        ensures { AreWorldsOf self.now.compiled.model result.now }
    {
        &self.workspace.worlds
    }

    /// The pairs of the goal in force, if there is one.
    pub fn goal(&self) -> Option<&[Pair]>
        ensures pairs { option_map (λ g. g.now) result ≡ self.now.state.goal }
        ensures few { IfSome result (λ g. length g.now ≤ MAX_COMPONENTS) }
    {
        self.standing.goal()
    }

    /// The tables, if there are any.
    pub fn tables(&self) -> Option<&Tables>
        ensures value { option_map (λ t. t.now) result ≡ self.now.tables }
        ensures executive { IsExecutive self.now }
    {
        self.workspace.policy.get()
    }

    /// What the next tick observes besides the mirrored variables.
    pub fn pending(&self) -> &[Pair]
        ensures pairs { result.now ≡ self.now.state.pending }
        ensures few { length result.now ≤ MAX_VARIABLES }
    {
        self.standing.pending()
    }

    /// The mirrored variables.
    pub fn mirrored(&self) -> VarSet
        ensures { result ≡ self.now.state.mirrored }
    {
        self.standing.mirrored
    }

    /// What the last tick observed, the mirrored variables with it.
    pub fn last_seen(&self) -> &[Pair]
        ensures pairs { result.now ≡ self.now.last_seen }
        ensures few { length result.now ≤ MAX_VARIABLES }
    {
        self.workspace.seen.as_slice()
    }

    /// Whether the last tick since the start or the last reset was unexplained, or came while holding.
    pub fn holding(&self) -> bool
        ensures { result ≡ self.now.state.holding }
    {
        self.standing.holding
    }

    /// The last estimate.
    pub fn estimate(&self) -> &State
        ensures { result.now.modes ≡ self.now.state.estimate }
    {
        &self.standing.estimate
    }

    /// The state of the plant.
    pub fn plant(&self) -> &State
        ensures { result.now.modes ≡ self.now.state.plant }
    {
        &self.standing.plant
    }
}
