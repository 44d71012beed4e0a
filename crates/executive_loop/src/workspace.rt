//! What an executive's ticks work in, made once for all of them.

ghost use Rattle.std.specs.Prelude.{◌≡◌, [], None, IfOk};
ghost use Rattle.cca_base.specs.Prelude.{CompiledModel, IsState};
ghost use Rattle.consistency.specs.Observed.{IsMirror};
ghost use Rattle.consistency.specs.Worlds.{AreWorldsOf};
ghost use Rattle.mode_estimator.specs.Spaces.{IsEstimateSpace};
ghost use Rattle.executive_loop.specs.Covering.{tables_in};
ghost use Rattle.executive_loop.specs.Parts.{IsWorkspace};

use crate::policy::Policy;
use bounded_list::BoundedList;
use cca_base::{Compiled, MAX_VARIABLES, Model, Pair, State};
use consistency::{Mirror, Worlds};
use mode_estimator::EstimateSpace;
use std::alloc::{AllocError, Global};
use std::rc::Rc;

/// The rules' clauses, and memory for ticks.
#[derive(Drop)]
pub(crate) struct Workspace {
    /// The clauses of the model's rules.
    pub worlds: Worlds,
    pub space: EstimateSpace,
    /// What the mirrored variables showed last, asked for again only after the plant has moved or others are mirrored.
    pub mirror: Mirror,
    /// What the last tick observed.
    pub seen: BoundedList<Pair>,
    pub policy: Policy,
}

/// The clauses of the model's rules, and memory for observations and estimates. The error is out of memory.
fn memory_of(alloc: Global, model: &Model) -> Result<(Worlds, Mirror, EstimateSpace), AllocError>
    ensures worlds { IfOk result (λ r. AreWorldsOf model.now r.0) }
    ensures mirror { IfOk result (λ r. IsMirror model.now r.0 r.1) }
    ensures space { IfOk result (λ r. IsEstimateSpace model.now r.0 r.2) }
{
    let worlds = Worlds::of(alloc, model)?;
    let mirror = Mirror::of(alloc, model, &worlds)?;
    let space = EstimateSpace::of(alloc, model, &worlds)?;
    Ok((worlds, mirror, space))
}

impl Workspace {
    /// Nothing observed, and no tables in use. The error is out of memory.
    pub fn of(
        alloc: Global,
        compiled: &Rc<Compiled>,
        state: &State,
    ) -> Result<Workspace, AllocError>
        requires { IsState compiled.now.value.model state.now.modes }
        ensures of { IfOk result (IsWorkspace compiled.now.value) }
        ensures unused { IfOk result (λ w. tables_in w.policy ≡ None) }
        ensures nothing { IfOk result (λ w. w.seen.items ≡ []) }
    {
        let policy = Policy::of(alloc, compiled, state)?;
        let seen = BoundedList::with_room(alloc, MAX_VARIABLES)?;
        let (worlds, mirror, space) = memory_of(alloc, compiled.model())?;
        Ok(Workspace {
            worlds,
            space,
            mirror,
            seen,
            policy,
        })
    }

    /// As before the first tick: nothing is observed, and no tables are in use.
    pub fn forget(&mut self)
        ensures seen { self.new.seen.items ≡ [] }
        ensures unused { tables_in self.new.policy ≡ None }
        ensures of { (b : CompiledModel) → IsWorkspace b self.old → IsWorkspace b self.new }
    {
        self.seen.clear();
        self.policy.in_use = false;
    }
}
