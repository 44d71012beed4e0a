//! A tracker: it follows a plant that somebody else commands, keeps the last ticks open, and revises them by what is seen later.

ghost use Rattle.std.specs.Prelude.{◌≡◌, ◌<◌, ◌≤◌, false, ◌+◌, ◌-◌, ◌^◌, IfOk, OnErr, OnOk, drop, length, map};
ghost use Rattle.cca_base.specs.Prelude.{start_modes, IsCompiled, IsState};
ghost use Rattle.consistency.specs.Worlds.{AreWorldsOf};
ghost use Rattle.trajectory_estimator.specs.Asked.{AreValues, IsBestOf, entry_of, modes_of};
ghost use Rattle.trajectory_estimator.specs.Changes.{AreChangesOf};
ghost use Rattle.trajectory_estimator.specs.Tracked.{TicksBy, tracked_start};
ghost use Rattle.trajectory_estimator.specs.NextWindows.{IsNextWindow, IsWindowIn};
ghost use Rattle.trajectory_estimator.specs.Spaces.{IsWindowSpace};
ghost use Rattle.window_laws.specs.Ticks.{IsRevised, going, next_anchor};

use crate::best::best_of;
use crate::changes::Changes;
use crate::next_window::NextWindow;
use crate::query::Query;
use crate::record::{MAX_WINDOW, Record, records_with};
use crate::revised::{copy_states, revised};
use crate::space::WindowSpace;
use crate::trajectory::Trajectory;
use crate::window::Window;
use cca_base::{Compiled, List, State};
use consistency::Worlds;
use std::alloc::{AllocError, Global};
use std::marker::Model;
use successors::Plant;

/// An accepted model with the window of the last ticks, where that begins, and its best trajectory. A contract sees the compiled model
/// and where the tracker stands.
#[derive(Drop)]
pub struct Tracker {
    alloc: Global,
    compiled: Compiled,
    worlds: Worlds,
    /// Memory in which clashes with what was seen are sought, made once for all windows.
    space: WindowSpace,
    changes: Changes,
    anchor: State,
    records: List<Record>,
    last: List<State>,
    ticks: u64,
    holding: bool,
}

impl Model for Tracker {
    ghost use Rattle.cca_base.specs.Prelude.{model_codes};
    ghost use Rattle.std.specs.Prelude.{length};
    ghost use Rattle.trajectory_estimator.specs.Queries.{IsTracker};
    ghost use Rattle.trajectory_estimator.specs.Spaces.{IsWindowSpace};
    ghost use Rattle.trajectory_estimator.specs.Tracked.{Tracked, stands};

    ghost Value = { Tracked };

    ghost coded = { Prim.hlevel model_codes };

    ghost view = { λ t. record {
      compiled = t.compiled;
      state = stands t.anchor t.records t.last t.ticks t.holding;
    } };

    ghost invariant = { λ t. IsTracker t.compiled t.worlds t.changes
        (stands t.anchor t.records t.last t.ticks t.holding) × IsWindowSpace t.worlds (length t.compiled.model.components) t.space };
}

/// The state in which each component starts. The error is out of memory.
fn start_state(alloc: Global, compiled: &Compiled) -> Result<State, AllocError>
    ensures value { IfOk result (λ s. s.modes ≡ start_modes compiled.now.model) }
    ensures state { IfOk result (λ s. IsState compiled.now.model s.modes) }
{
    let plant = Plant::open(alloc, compiled)?;
    plant.state().copy(alloc)
}

/// The best trajectory of the window. None comes exactly where there is none. The error is out of memory.
fn best_in(
    alloc: Global,
    compiled: &Compiled,
    worlds: &Worlds,
    changes: &Changes,
    space: &mut WindowSpace,
    window: &NextWindow,
) -> Result<Option<Trajectory>, AllocError>
    requires worlds { AreWorldsOf compiled.now.model worlds.now }
    requires changes { AreChangesOf compiled.now.model changes.now }
    requires space { IsWindowSpace worlds.now (length compiled.now.model.components) space.old }
    requires window { IsWindowIn compiled.now.model window.now }
    ensures best { IfOk result (IsBestOf compiled.now.model window.now.anchor.modes
        (map entry_of window.now.records)) }
    ensures space { IsWindowSpace worlds.now (length compiled.now.model.components) space.new }
{
    let (anchor, records) = (&window.anchor, window.records.as_slice());
    let query = Query::new(alloc, compiled, worlds, changes, anchor, records);
    best_of(&query, space)
}

impl Tracker {
    /// A tracker in the start modes, with no record. The error is out of memory, and the model is gone then.
    pub fn open(alloc: Global, compiled: Compiled) -> Result<Tracker, AllocError>
        ensures { IfOk result (λ t. t ≡ tracked_start compiled 0) }
    {
        let model = compiled.model();
        let worlds = Worlds::of(alloc, model)?;
        let space = WindowSpace::of(alloc, model, &worlds)?;
        let changes = Changes::of(alloc, model)?;
        let anchor = start_state(alloc, &compiled)?;
        Ok(Tracker {
            alloc,
            compiled,
            worlds,
            space,
            changes,
            anchor,
            records: List::new(alloc),
            last: List::new(alloc),
            ticks: 0,
            holding: false,
        })
    }

    /// Where the window begins if so many of its records go. The error is out of memory.
    fn next_anchor(&self, gone: usize) -> Result<State, AllocError>
        requires awake { self.now.state.holding ≡ false }
        requires gone { gone ≡ going self.now.state }
        ensures { IfOk result (λ s. s.modes ≡ next_anchor self.now.state) }
    {
        if gone == 0 {
            return self.anchor.copy(self.alloc);
        }
        self.last.get(0).copy(self.alloc)
    }

    /// How many records go at the next tick.
    fn going(&self) -> usize
        ensures { result ≡ going self.now.state }
    {
        (self.records.len() + 1).saturating_sub(MAX_WINDOW)
    }

    /// The window of the next tick. The error is out of memory.
    fn next_window(&self, entry: Record) -> Result<NextWindow, AllocError>
        requires awake { self.now.state.holding ≡ false }
        requires values { AreValues self.now.compiled.model (entry_of entry) }
        ensures next { IfOk result (IsNextWindow self.now.state (entry_of entry)) }
        ensures good { IfOk result (IsWindowIn self.now.compiled.model) }
    {
        let gone = self.going();
        let anchor = self.next_anchor(gone)?;
        let records = records_with(self.alloc, self.records.as_slice(), gone, entry)?;
        Ok(NextWindow {
            gone,
            anchor,
            records,
        })
    }

    /// The number of the first tick at which the states of the next window are others than the last ones. None comes exactly where there
    /// is no such tick.
    fn revised_by(&self, gone: usize, states: &[State]) -> Option<u64>
        requires awake { self.now.state.holding ≡ false }
        requires gone { gone ≡ going self.now.state }
        requires some { 0 < length states.now }
        requires few { length states.now ≤ self.now.state.ticks + 1 }
        requires room { self.now.state.ticks + 1 < 2 ^ 64 }
        ensures { IsRevised (self.now.state.ticks + 2 - length states.now)
            (drop (going self.now.state) self.now.state.last) (modes_of states.now) result }
    {
        let first = self.ticks + 1 - (states.len() as u64 - 1);
        revised(first, &self.last.as_slice()[gone..], states)
    }

    /// Takes in what is known of the next tick, and answers the best trajectory of the window. From a full window the oldest record goes
    /// first. The error is out of memory; the record is gone then, and the tracker is as before.
    pub fn tick(&mut self, entry: Record) -> Result<Window, AllocError>
        requires values { AreValues self.old.compiled.model (entry_of entry) }
        requires room { self.old.state.ticks + 1 < 2 ^ 64 }
        ensures ok { IfOk result (TicksBy self.old (entry_of entry) self.new) }
        ensures err { OnErr result (self.new ≡ self.old) }
    {
        if self.holding {
            self.ticks += 1;
            return Ok(Window::Holding);
        }
        let next = self.next_window(entry)?;
        let best = best_in(
            self.alloc,
            &self.compiled,
            &self.worlds,
            &self.changes,
            &mut self.space,
            &next,
        )?;
        let Some(path) = best else {
            self.ticks += 1;
            self.holding = true;
            return Ok(Window::Unexplained);
        };
        let last = copy_states(self.alloc, path.states.as_slice())?;
        let revised = self.revised_by(next.gone, path.states.as_slice());
        self.anchor = next.anchor;
        self.records = next.records;
        self.last = last;
        self.ticks += 1;
        Ok(Window::Found { path, revised })
    }

    /// Goes to the start modes, with no record; the ticks that were made go on counting. The error is out of memory, and the tracker is as
    /// before.
    pub fn reset(&mut self) -> Result<(), AllocError>
        ensures ok { OnOk result (self.new ≡ tracked_start self.old.compiled self.old.state.ticks) }
        ensures err { OnErr result (self.new ≡ self.old) }
    {
        self.anchor = start_state(self.alloc, &self.compiled)?;
        self.records = List::new(self.alloc);
        self.last = List::new(self.alloc);
        self.holding = false;
        Ok(())
    }

    /// The model that it was opened with.
    pub fn compiled(&self) -> &Compiled
        ensures value { result.now ≡ self.now.compiled }
        ensures compiled { IsCompiled self.now.compiled }
    {
        &self.compiled
    }
}
