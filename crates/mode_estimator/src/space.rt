//! Memory for the estimates of a model's ticks, made once for many of them.

ghost use Rattle.std.specs.Prelude.{◌≡◌, IfOk};
ghost use Rattle.mode_estimator.specs.Spaces.{IsEstimateSpace, IsTickSpace};

use bounded_list::BoundedList;
use cca_base::{List, Model, Pair, State, numbers_below};
use consistency::{WorldSpace, Worlds};
use group_search::SearchRoom;
use std::alloc::{AllocError, Global};
use std::mem::swap;
use successors::ChoiceSpace;

/// Memory for questions whether modes clash with what is seen.
#[derive(Drop)]
pub struct TickSpace {
    pub(crate) worlds: WorldSpace,
    /// The pairs that are asked.
    pub(crate) asked: BoundedList<Pair>,
    /// Those of them that are to blame.
    pub(crate) blamed: BoundedList<Pair>,
}

/// Memory for estimates.
#[derive(Drop)]
pub struct EstimateSpace {
    pub(crate) tick: TickSpace,
    pub(crate) search: SearchRoom,
    /// The modes that each component may choose.
    pub(crate) masks: List<u64>,
    /// The choices of a tick.
    pub(crate) choices: ChoiceSpace,
    /// The component of each place of a tick's question: itself.
    pub(crate) components: Vec<u16>,
    /// The state that was found last.
    pub(crate) found: State,
}

impl TickSpace {
    /// Memory for questions of so many components. The error is out of memory.
    fn of(alloc: Global, components: usize, worlds: &Worlds) -> Result<TickSpace, AllocError>
        ensures { IfOk result (IsTickSpace worlds.now components) }
    {
        Ok(TickSpace {
            worlds: worlds.space(alloc)?,
            asked: BoundedList::with_room(alloc, components)?,
            blamed: BoundedList::with_room(alloc, components)?,
        })
    }
}

impl EstimateSpace {
    /// Memory for estimates of the model's ticks, whose worlds these are. The error is out of memory.
    pub fn of(alloc: Global, model: &Model, worlds: &Worlds) -> Result<EstimateSpace, AllocError>
        ensures { IfOk result (IsEstimateSpace model.now worlds.now) }
    {
        let count = model.components().len();
        let components = numbers_below(alloc, count)?;
        let found = State {
            modes: List::of(vec![in alloc; 0; count]?),
        };
        let masks = List::of(vec![in alloc; 0; count]?);
        let choices = ChoiceSpace::of(alloc, model)?;
        let tick = TickSpace::of(alloc, count, worlds)?;
        let search = SearchRoom::of(alloc, count, count, 0)?;
        Ok(EstimateSpace {
            tick,
            search,
            masks,
            choices,
            components,
            found,
        })
    }

    /// The state that was found last.
    pub fn found(&self) -> &State
        ensures { result.now ≡ self.now.found }
    {
        &self.found
    }

    /// Hands out the state that was found last, and keeps the other as memory for the next.
    pub fn swap_found(&mut self, state: &mut State)
        ensures taken { state.new ≡ self.old.found }
        ensures kept { self.new ≡ record self.old { found = state.old } }
    {
        swap(&mut self.found, state);
    }
}
