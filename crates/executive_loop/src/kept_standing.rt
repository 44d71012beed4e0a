//! Where an executive stands, in memory that is made once.

ghost use Rattle.std.specs.Prelude.{◌≡◌, ◌≤◌, [], length, true, None, IfOk, IfSome};
ghost use Rattle.cca_base.specs.declared.limits.TheConstants.{MAX_COMPONENTS, MAX_VARIABLES};
ghost use Rattle.std.specs.Option.{option_map};
ghost use Rattle.cca_base.specs.Prelude.{start, start_modes, Changes, IsSorted, IsState, MayCome};
ghost use Rattle.trace_laws.specs.Events.{IsTick};
ghost use Rattle.trace_laws.specs.Fits.{Fits};
ghost use Rattle.executive_loop.specs.Borrowed.{event_read};

use crate::event_ref::EventRef;
use bounded_list::BoundedList;
use causal_graph::sort_into;
use cca_base::{Compiled, List, MAX_COMPONENTS, MAX_VARIABLES, Model, Pair, State, VarSet};
use consistency::join;
use std::alloc::{AllocError, Global};
use trace_laws::Standing;

/// Where an executive stands. A contract sees it in the words of the definitions.
#[derive(Drop)]
pub(crate) struct KeptStanding {
    pub estimate: State,
    /// The command of the last tick.
    pub command: Option<u16>,
    pub plant: State,
    /// What the next tick observes besides the mirrored variables.
    pending: BoundedList<Pair>,
    pub mirrored: VarSet,
    /// The pairs of the goal, effects before their causes, where there is one.
    goal: BoundedList<Pair>,
    has_goal: bool,
    /// Whether a tick was unexplained.
    pub holding: bool,
    /// How many ticks were made.
    pub ticks: u64,
}

impl std::marker::Model for KeptStanding {
    ghost use Rattle.std.specs.Coded.{codes};
    ghost use Rattle.std.specs.Prelude.{cond, Some, None};
    ghost use Rattle.cca_base.specs.Prelude.{ExecutiveState};
    ghost use Rattle.executive_loop.specs.Parts.{HasStandingRoom};

    ghost Value = { ExecutiveState };

    ghost coded = { Prim.hlevel codes };

    ghost view = { λ x. record {
      estimate = x.estimate.modes;
      command = x.command;
      plant = x.plant.modes;
      pending = x.pending.items;
      mirrored = x.mirrored;
      goal = cond x.has_goal (Some x.goal.items) None;
      holding = x.holding;
      ticks = x.ticks;
    } };

    ghost invariant = { λ x. HasStandingRoom x.pending.room x.goal.room };
}

/// Writes the modes in which the components start.
fn write_start(model: &Model, modes: &mut List<u8>)
    requires { length modes.old ≡ length model.now.components }
    ensures { modes.new ≡ start_modes model.now }
{
    let components = model.components();
    for at in 0..components.len() {
        modes.set(at, components.get(at).start);
    }
}

impl KeptStanding {
    /// The start, with memory for what may come. The error is out of memory.
    pub fn start(alloc: Global, model: &Model) -> Result<KeptStanding, AllocError>
        ensures { IfOk result (λ x. x ≡ start model.now 0) }
    {
        let pending = BoundedList::with_room(alloc, MAX_VARIABLES)?;
        let goal = BoundedList::with_room(alloc, MAX_COMPONENTS)?;
        let Standing {
            estimate,
            plant,
            ..
        } = Standing::start(alloc, model, 0)?;
        Ok(KeptStanding {
            estimate,
            command: None,
            plant,
            pending,
            mirrored: VarSet::empty(),
            goal,
            has_goal: false,
            holding: false,
            ticks: 0,
        })
    }

    /// The start again, with the number of ticks kept.
    fn restart(&mut self, model: &Model)
        requires estimate { IsState model.now self.old.estimate }
        requires plant { IsState model.now self.old.plant }
        ensures { self.new ≡ start model.now self.old.ticks }
    {
        write_start(model, &mut self.estimate.modes);
        write_start(model, &mut self.plant.modes);
        self.command = None;
        self.pending.clear();
        self.mirrored = VarSet::empty();
        self.has_goal = false;
        self.holding = false;
    }

    /// Makes an event that is no tick.
    pub fn change(&mut self, compiled: &Compiled, event: EventRef<'_>)
        requires fits { Fits compiled.now self.old }
        requires may_come { MayCome compiled.now.model self.old.pending self.old.mirrored
            (event_read event) }
        requires no_tick { IsTick (event_read event) → ⊥ }
        ensures { Changes compiled.now.model (IsSorted compiled.now.order) self.old
            (event_read event.entry) self.new }
    {
        let model = compiled.model();
        match event {
            EventRef::Goal(pairs) => {
                sort_into(compiled, pairs, &mut self.goal);
                self.has_goal = true;
            }
            EventRef::Clear => self.has_goal = false,
            EventRef::Observe(pairs) => join(&mut self.pending, pairs),
            EventRef::Fault(pair) => self.plant.modes.set(pair.item as usize, pair.value),
            EventRef::Mirror(v) => self.mirrored = self.mirrored.with(v),
            EventRef::Reset => self.restart(model),
            EventRef::Tick => {}
        }
    }

    /// Keeps a tick's command and number, and drops what was pending.
    pub fn count(&mut self, command: Option<u16>, tick: u64)
        ensures { self.new ≡ record self.old { command = command; pending = []; ticks = tick } }
    {
        self.command = command;
        self.pending.clear();
        self.ticks = tick;
    }

    /// Keeps that a tick was unexplained.
    pub fn hold(&mut self, tick: u64)
        ensures { self.new ≡ record self.old { command = None; pending = []; holding = true; ticks = tick } }
    {
        self.holding = true;
        self.count(None, tick);
    }

    /// What the next tick observes besides the mirrored variables.
    pub fn pending(&self) -> &[Pair]
        ensures pairs { result.now ≡ self.now.pending }
        ensures few { length result.now ≤ MAX_VARIABLES }
    {
        self.pending.as_slice()
    }

    /// The pairs of the goal in force, if there is one.
    pub fn goal(&self) -> Option<&[Pair]>
        ensures pairs { option_map (λ g. g.now) result ≡ self.now.goal }
        ensures few { IfSome result (λ g. length g.now ≤ MAX_COMPONENTS) }
    {
        if self.has_goal {
            Some(self.goal.as_slice())
        } else {
            None
        }
    }
}
