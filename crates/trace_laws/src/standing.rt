//! Where an executive stands, and what each event but a tick changes of it.

ghost use Rattle.std.specs.Prelude.{◌≡◌, [], IfOk, OnOk, OnErr};
ghost use Rattle.cca_base.specs.Prelude.{command_of, start, start_modes, Changes, IsRising, IsState, MayCome};
ghost use Rattle.trace_laws.specs.Events.{AsGiven, IsTick};

use crate::known::{Known, nothing_seen};
use cca_base::{Event, Goal, List, Model, Reply, State};
use std::alloc::{AllocError, Global};

/// Where an executive stands. A contract sees it in the words of the definitions.
#[derive(Debug, Drop)]
pub struct Standing {
    /// The last estimate.
    pub estimate: State,
    /// The command of the last tick.
    pub command: Option<u16>,
    pub plant: State,
    pub known: Known,
    /// The goal in force, with its pairs in the order in which they were kept: an executive's with effects before their causes, a checker's as
    /// they were given.
    pub goal: Option<Goal>,
    /// Whether a tick was unexplained.
    pub holding: bool,
    /// How many ticks were made.
    pub ticks: u64,
}

impl std::marker::Model for Standing {
    ghost use Rattle.std.specs.Coded.{codes};
    ghost use Rattle.std.specs.Option.{option_map};
    ghost use Rattle.cca_base.specs.Prelude.{ExecutiveState};

    ghost Value = { ExecutiveState };

    ghost coded = { Prim.hlevel codes };

    ghost view = { λ x. record {
      estimate = x.estimate.modes;
      command = x.command;
      plant = x.plant.modes;
      pending = x.known.pending.pairs;
      mirrored = x.known.mirrored;
      goal = option_map (λ g. g.pairs) x.goal;
      holding = x.holding;
      ticks = x.ticks;
    } };
}

/// The modes in which the components start. The error is out of memory.
fn start_state(alloc: Global, model: &Model) -> Result<State, AllocError>
    ensures { IfOk result (λ s. s.modes ≡ start_modes model.now) }
{
    let mut modes = List::new(alloc);
    for component in model.components().as_slice() {
        modes.push(component.start)?;
    }
    Ok(State { modes })
}

/// The command that a reply sends.
pub fn command_of(reply: Reply) -> Option<u16>
    ensures { result ≡ command_of reply }
{
    match reply {
        Reply::Send(command) => Some(command),
        Reply::Idle | Reply::Achieved | Reply::Unreachable(..) => None,
    }
}

impl Standing {
    /// The start, with so many ticks made. The error is out of memory.
    pub fn start(alloc: Global, model: &Model, ticks: u64) -> Result<Standing, AllocError>
        ensures { IfOk result (λ x. x ≡ start model.now ticks) }
    {
        let estimate = start_state(alloc, model)?;
        let plant = estimate.copy(alloc)?;
        Ok(Standing {
            estimate,
            command: None,
            plant,
            known: Known::nothing(alloc),
            goal: None,
            holding: false,
            ticks,
        })
    }

    /// Makes an event that is no tick; a goal's pairs are kept as they are given. The error is out of memory.
    pub fn change(&mut self, alloc: Global, model: &Model, event: &Event) -> Result<(), AllocError>
        requires plant { IsState model.now self.old.plant }
        requires rising { IsRising self.old.pending }
        requires may_come { MayCome model.now self.old.pending self.old.mirrored event.now }
        requires no_tick { IsTick event.now → ⊥ }
        ensures ok { OnOk result (Changes model.now AsGiven self.old event.now self.new) }
        ensures err { OnErr result (self.new ≡ self.old) }
    {
        match event {
            Event::Goal(given) => {
                let pairs = given.copy(alloc)?;
                self.goal = Some(Goal { pairs });
            }
            Event::Clear => self.goal = None,
            Event::Fault(pair) => self.plant.modes.set(pair.item as usize, pair.value),
            Event::Reset => {
                let fresh = Standing::start(alloc, model, self.ticks)?;
                *self = fresh;
            }
            Event::Observe(_) | Event::Mirror(_) | Event::Tick => {
                let known = self.known.after(alloc, model, event)?;
                self.known = known;
            }
        }
        Ok(())
    }

    /// Keeps a tick's command and number, and drops what was pending.
    pub fn count(&mut self, alloc: Global, command: Option<u16>, tick: u64)
        ensures { self.new ≡ record self.old { command = command; pending = []; ticks = tick } }
    {
        self.command = command;
        self.known.pending = nothing_seen(alloc);
        self.ticks = tick;
    }
}
