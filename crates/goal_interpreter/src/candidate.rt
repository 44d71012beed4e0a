//! The lightest state that extends an implicant.

ghost use Rattle.std.specs.Prelude.{◌<◌, ◌↔◌, [], All, IfOk, IsTrue, length, slice_index};
ghost use Rattle.cca_base.specs.Prelude.{HasMode, IsState};
ghost use Rattle.reversibility.specs.ClassParts.{in_row};
ghost use Rattle.wish_laws.specs.Lightest.{IsLightestOf, MayStand};
ghost use Rattle.goal_interpreter.specs.Choosing.{IsLightest};
ghost use Rattle.goal_interpreter.specs.Weights.{AreWeights};

use crate::weights::Weights;
use cca_base::{Cube, Pair, State};
use reversibility::Classes;
use std::alloc::{AllocError, Global};

/// A state with what it weighs.
#[derive(Debug, Drop)]
pub(crate) struct Weighed {
    pub state: State,
    pub weight: u64,
}

/// Whether the component may stand in the pair's mode. It may stand in its own where its class is empty, and then its free mode
/// isn't in the class either.
#[tactic(auto, using(crate::proofs::Candidates::stands_in_class, crate::proofs::Candidates::not_beside, crate::proofs::Candidates::own_stands, crate::proofs::Candidates::not_own))]
fn may_stand(classes: &Classes, state: &State, free: &State, pair: Pair) -> bool
    requires component { pair.item < length classes.now.compiled.model.components }
    requires full { IsState classes.now.compiled.model state.now.modes }
    requires free_full { IsState classes.now.compiled.model free.now.modes }
    requires free { MayStand (in_row classes.now.rows) state.now.modes pair.item
        (slice_index free.now.modes pair.item) }
    ensures { IsTrue result
        ↔ MayStand (in_row classes.now.rows) state.now.modes pair.item pair.value }
{
    let set = classes.class(pair.item);
    let c = pair.item as usize;
    if set.has(pair.value) {
        return true;
    }
    if set.has(*free.modes.get(c)) {
        return false;
    }
    pair.value == *state.modes.get(c)
}

/// The lightest state that extends the cube: the free state with its pairs. None comes exactly where one of the pairs has a mode
/// in which its component may not stand. The error is out of memory.
pub(crate) fn candidate(
    alloc: Global,
    classes: &Classes,
    state: &State,
    weights: &Weights,
    free: &State,
    cube: &Cube,
) -> Result<Option<Weighed>, AllocError>
    requires state { IsState classes.now.compiled.model state.now.modes }
    requires weights { AreWeights classes.now.compiled.model weights.now.rows }
    requires free { IsLightestOf classes.now.compiled.model (in_row classes.now.rows)
        weights.now.rows state.now.modes [] free.now.modes }
    requires modes { All (λ p. HasMode classes.now.compiled.model p.item p.value) cube.now }
    ensures { IfOk result (IsLightest classes.now.compiled.model (in_row classes.now.rows)
        weights.now.rows state.now.modes cube.now) }
{
    let mut target = free.copy(alloc)?;
    for pair in cube.as_slice() {
        if !may_stand(classes, state, free, *pair) {
            return Ok(None);
        }
        target.modes.set(pair.item as usize, pair.value);
    }
    let weight = weights.weigh(classes.compiled().model(), &target);
    Ok(Some(Weighed {
        state: target,
        weight,
    }))
}
