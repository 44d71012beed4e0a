//! The variables that have one value in all worlds of a state.

ghost use Rattle.std.specs.Prelude.{All, IfOk};
ghost use Rattle.cca_base.specs.Prelude.{HasValue, HasWorld, IsState};
ghost use Rattle.consistency.specs.Forced.{AreForced, AreShown};
ghost use Rattle.consistency.specs.Spaces.{IsForcedSpace};
ghost use Rattle.consistency.specs.Worlds.{AreWorldsOf};

use crate::asking::see_state;
use crate::backbone::{backbone, put_first};
use crate::forced_space::ForcedSpace;
use crate::worlds::Worlds;
use cca_base::{List, Model, Seen, State, VarSet};
use std::alloc::{AllocError, Global};

impl Worlds {
    /// Leaves in the memory the variables of the set that have one value in all worlds of the state, each with that
    /// value, rising. It takes no memory.
    pub(crate) fn forced_in(
        &self,
        model: &Model,
        state: &State,
        vars: VarSet,
        space: &mut ForcedSpace,
    )
        requires of { AreWorldsOf model.now self.now }
        requires state { IsState model.now state.now.modes }
        requires world { HasWorld model.now state.now.modes }
        requires space { IsForcedSpace model.now self.now space.old }
        ensures space { IsForcedSpace model.now self.now space.new }
        ensures pairs { AreShown model.now state.now.modes vars space.new.pairs.items }
    {
        let components = model.components().len();
        let modes = state.modes.as_slice();
        see_state(
            model,
            &self.problem,
            modes,
            &mut space.modes,
            &mut space.worlds,
        );
        let search = &mut space.worlds.search;
        put_first(&self.problem, search, &mut space.values);
        backbone(
            &self.problem,
            search,
            components,
            vars,
            &space.values,
            &mut space.pairs,
        );
    }

    /// The variables of the set that have one value in all worlds of the state, each with that value, rising. The error
    /// is out of memory.
    pub fn forced(
        &self,
        alloc: Global,
        model: &Model,
        state: &State,
        vars: VarSet,
    ) -> Result<Seen, AllocError>
        requires of { AreWorldsOf model.now self.now }
        requires state { IsState model.now state.now.modes }
        requires world { HasWorld model.now state.now.modes }
        ensures forced { IfOk result (λ r. AreForced model.now state.now.modes vars r.pairs) }
        ensures values { IfOk result (λ r. All (λ p. HasValue model.now p.item p.value) r.pairs) }
    {
        let mut space = self.forced_space(alloc, model)?;
        self.forced_in(model, state, vars, &mut space);
        Ok(Seen {
            pairs: List::of(space.pairs.into_vec()),
        })
    }
}
