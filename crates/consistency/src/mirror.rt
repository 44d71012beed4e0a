//! What the mirrored variables showed last. It is asked for again only where the plant or the variables are others.

ghost use Rattle.std.specs.Prelude.{◌≡◌, ◌≤◌, false, length, All, IfOk, IsTrue, Some};
ghost use Rattle.cca_base.specs.Prelude.{has, HasValue, HasWorld, IsRising, IsState};
ghost use Rattle.consistency.specs.Forced.{AreShown};
ghost use Rattle.consistency.specs.Observed.{IsMirror, IsObserved};
ghost use Rattle.consistency.specs.Worlds.{AreWorldsOf};

use crate::forced_space::ForcedSpace;
use crate::observed::join;
use crate::worlds::Worlds;
use bounded_list::BoundedList;
use cca_base::{List, Model, Pair, Seen, State, VarSet};
use std::alloc::{AllocError, Global};

/// What the mirrored variables showed last, and memory to ask for it again: made once.
#[derive(Drop)]
pub struct Mirror {
    /// The variables that were asked for last, if any were.
    vars: Option<VarSet>,
    /// The plant's modes then.
    plant: Vec<u8>,
    /// The pairs that all worlds had, and memory to find them.
    space: ForcedSpace,
}

impl Mirror {
    /// Nothing yet. The error is out of memory.
    pub fn of(alloc: Global, model: &Model, worlds: &Worlds) -> Result<Mirror, AllocError>
        ensures { IfOk result (IsMirror model.now worlds.now) }
    {
        Ok(Mirror {
            vars: None,
            plant: Vec::from_elem(alloc, 0, model.components().len())?,
            space: worlds.forced_space(alloc, model)?,
        })
    }

    /// Whether what is kept is of the plant's state and of the variables.
    fn is_of(&self, plant: &State, vars: VarSet) -> bool
        ensures plant { IsTrue result → self.now.plant.items ≡ plant.now.modes }
        ensures vars { IsTrue result → self.now.vars ≡ Some vars }
    {
        match self.vars {
            Some(kept) => kept == vars && self.plant.as_slice() == plant.modes.as_slice(),
            None => false,
        }
    }
}

impl Worlds {
    /// Leaves what the variables show now: what is kept, or what is asked for anew. It takes no memory.
    fn renew(&self, model: &Model, plant: &State, vars: VarSet, mirror: &mut Mirror)
        requires of { AreWorldsOf model.now self.now }
        requires plant { IsState model.now plant.now.modes }
        requires world { HasWorld model.now plant.now.modes }
        requires mirror { IsMirror model.now self.now mirror.old }
        ensures mirror { IsMirror model.now self.now mirror.new }
        ensures now { AreShown model.now plant.now.modes vars mirror.new.space.pairs.items }
    {
        if mirror.is_of(plant, vars) {
            return;
        }
        self.forced_in(model, plant, vars, &mut mirror.space);
        mirror.plant.copy_from_slice(plant.modes.as_slice());
        mirror.vars = Some(vars);
    }

    /// Leaves in the list what is pending, and the variables of the set that have one value in all worlds of the
    /// plant's state. What the mirrored variables show is kept for the next time. It takes no memory.
    pub fn observed_in(
        &self,
        model: &Model,
        plant: &State,
        mirrored: VarSet,
        pending: &[Pair],
        mirror: &mut Mirror,
        seen: &mut BoundedList<Pair>,
    )
        requires of { AreWorldsOf model.now self.now }
        requires plant { IsState model.now plant.now.modes }
        requires world { HasWorld model.now plant.now.modes }
        requires rising { IsRising pending.now }
        requires unmirrored { All (λ p. has mirrored p.item ≡ false) pending.now }
        requires pending { All (λ p. HasValue model.now p.item p.value) pending.now }
        requires mirror { IsMirror model.now self.now mirror.old }
        requires room { length model.now.variables ≤ seen.old.room }
        ensures seen { IsObserved model.now plant.now.modes mirrored pending.now seen.new.items }
        ensures values { All (λ p. HasValue model.now p.item p.value) seen.new.items }
        ensures room { seen.new.room ≡ seen.old.room }
        ensures mirror { IsMirror model.now self.now mirror.new }
    {
        self.renew(model, plant, mirrored, mirror);
        seen.clear();
        seen.push_all(pending);
        join(seen, mirror.space.pairs.as_slice());
    }

    /// What is pending, and the variables of the set that have one value in all worlds of the plant's state, for one
    /// tick alone. The error is out of memory.
    pub fn observed_by(
        &self,
        alloc: Global,
        model: &Model,
        plant: &State,
        mirrored: VarSet,
        pending: &[Pair],
    ) -> Result<Seen, AllocError>
        requires of { AreWorldsOf model.now self.now }
        requires plant { IsState model.now plant.now.modes }
        requires world { HasWorld model.now plant.now.modes }
        requires rising { IsRising pending.now }
        requires unmirrored { All (λ p. has mirrored p.item ≡ false) pending.now }
        requires pending { All (λ p. HasValue model.now p.item p.value) pending.now }
        ensures seen { IfOk result (λ seen.
            IsObserved model.now plant.now.modes mirrored pending.now seen.pairs) }
        ensures values { IfOk result (λ seen.
            All (λ p. HasValue model.now p.item p.value) seen.pairs) }
    {
        let mut mirror = Mirror::of(alloc, model, self)?;
        let mut seen = BoundedList::with_room(alloc, model.variables().len())?;
        self.observed_in(model, plant, mirrored, pending, &mut mirror, &mut seen);
        Ok(Seen {
            pairs: List::of(seen.into_vec()),
        })
    }
}
