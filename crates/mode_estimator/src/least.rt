//! The estimate of a tick. The nominal state is the only one that costs nothing, so it is asked for first; the others are searched where
//! it doesn't explain what is seen.

ghost use Rattle.std.specs.Prelude.{IfOk, All};
ghost use Rattle.cca_base.specs.Prelude.{HasValue, IsState};
ghost use Rattle.consistency.specs.Worlds.{AreWorldsOf};
ghost use Rattle.mode_estimator.specs.Estimated.{IsEstimate};
ghost use Rattle.mode_estimator.specs.First.{found_in};
ghost use Rattle.mode_estimator.specs.Spaces.{IsEstimateSpace};

use crate::answer::Estimate;
use crate::first::{copy_modes, first_shown};
use crate::space::EstimateSpace;
use cca_base::{Compiled, Pair, Seen, State};
use consistency::{Rules, Worlds};
use std::alloc::{AllocError, Global};
use successors::{choices_in, obey};

/// The state of least cost that has a world agreeing with what is seen, the first in mode order among equals, by the
/// clauses of the model's rules and in memory for estimates, both made once for many ticks: what it costs, and the state is
/// the found one of the memory. None where no state agrees. It takes no memory.
pub fn estimate_in(
    alloc: Global,
    compiled: &Compiled,
    worlds: &Worlds,
    state: &State,
    command: Option<u16>,
    seen: &[Pair],
    space: &mut EstimateSpace,
) -> Option<u64>
    requires worlds { AreWorldsOf compiled.now.model worlds.now }
    requires state { IsState compiled.now.model state.now.modes }
    requires seen { All (λ p. HasValue compiled.now.model p.item p.value) seen.now }
    requires space { IsEstimateSpace compiled.now.model worlds.now space.old }
    ensures estimate { IsEstimate compiled.now.model state.now.modes command seen.now (found_in result space.new.found) }
    ensures space { IsEstimateSpace compiled.now.model worlds.now space.new }
{
    let model = compiled.model();
    copy_modes(&state.modes, &mut space.found.modes);
    obey(compiled, &mut space.found, command);
    if worlds.agrees(model, &space.found, seen, &mut space.tick.worlds) {
        return Some(0);
    }
    choices_in(compiled, state, command, &mut space.choices);
    let rules = Rules {
        alloc,
        model,
        worlds,
    };
    first_shown(&rules, seen, space)
}

/// The same, and a found state is a copy. The error is out of memory.
pub fn estimate_by(
    alloc: Global,
    compiled: &Compiled,
    worlds: &Worlds,
    state: &State,
    command: Option<u16>,
    seen: &Seen,
    space: &mut EstimateSpace,
) -> Result<Estimate, AllocError>
    requires worlds { AreWorldsOf compiled.now.model worlds.now }
    requires state { IsState compiled.now.model state.now.modes }
    requires seen { All (λ p. HasValue compiled.now.model p.item p.value) seen.now.pairs }
    requires space { IsEstimateSpace compiled.now.model worlds.now space.old }
    ensures estimate { IfOk result (IsEstimate compiled.now.model state.now.modes command seen.now.pairs) }
    ensures space { IsEstimateSpace compiled.now.model worlds.now space.new }
{
    let pairs = seen.pairs.as_slice();
    match estimate_in(alloc, compiled, worlds, state, command, pairs, space) {
        None => Ok(Estimate::Unexplained),
        Some(cost) => {
            let state = space.found.copy(alloc)?;
            Ok(Estimate::Found { state, cost })
        }
    }
}

/// The same for one tick alone.
pub fn estimate(
    alloc: Global,
    compiled: &Compiled,
    state: &State,
    command: Option<u16>,
    seen: &Seen,
) -> Result<Estimate, AllocError>
    requires state { IsState compiled.now.model state.now.modes }
    requires seen { All (λ p. HasValue compiled.now.model p.item p.value) seen.now.pairs }
    ensures { IfOk result (IsEstimate compiled.now.model state.now.modes command seen.now.pairs) }
{
    let worlds = Worlds::of(alloc, compiled.model())?;
    let mut space = EstimateSpace::of(alloc, compiled.model(), &worlds)?;
    estimate_by(alloc, compiled, &worlds, state, command, seen, &mut space)
}
