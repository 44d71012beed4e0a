//! The lightest of the implicants' states.

ghost use Rattle.std.specs.Prelude.{All, IfOk, IsFalse, IsTrue};
ghost use Rattle.cca_base.specs.Prelude.{HasMode, IsState};
ghost use Rattle.reversibility.specs.ClassParts.{in_row};
ghost use Rattle.goal_interpreter.specs.Choosing.{IsLightestAmong, IsLighterOne, IsNoHeavier};
ghost use Rattle.goal_interpreter.specs.Weights.{AreWeights};

use crate::candidate::{Weighed, candidate};
use crate::light::free_state;
use crate::weights::Weights;
use cca_base::{Cube, List, State};
use reversibility::Classes;
use std::alloc::{AllocError, Global};

/// Whether the first weighs less, or as much while its state is no later in mode order.
#[tactic(auto, using(crate::proofs::Choices::no_later, crate::proofs::Choices::no_earlier))]
fn is_no_heavier(x: &Weighed, y: &Weighed) -> bool
    ensures yes { IsTrue result → IsNoHeavier x.now y.now }
    ensures no { IsFalse result → IsNoHeavier y.now x.now }
{
    if x.weight != y.weight {
        return x.weight < y.weight;
    }
    x.state
        .modes
        .as_slice()
        .cmp(y.state.modes.as_slice())
        .is_le()
}

/// The lighter of two, where there are two.
fn lighter(best: Option<Weighed>, next: Option<Weighed>) -> Option<Weighed>
    ensures { IsLighterOne best next result }
{
    let Some(x) = best else {
        return next;
    };
    let Some(y) = next else {
        return Some(x);
    };
    if is_no_heavier(&x, &y) {
        Some(x)
    } else {
        Some(y)
    }
}

/// The lightest of the cubes' lightest states, the first in mode order among equals. None comes exactly where each cube has
/// a pair with a mode in which its component may not stand. The error is out of memory.
pub(crate) fn choose(
    alloc: Global,
    classes: &Classes,
    state: &State,
    weights: &Weights,
    cubes: &List<Cube>,
) -> Result<Option<Weighed>, AllocError>
    requires state { IsState classes.now.compiled.model state.now.modes }
    requires weights { AreWeights classes.now.compiled.model weights.now.rows }
    requires cubes { All (All (λ p. HasMode classes.now.compiled.model p.item p.value)) cubes.now }
    ensures { IfOk result (IsLightestAmong classes.now.compiled.model (in_row classes.now.rows)
        weights.now.rows state.now.modes cubes.now) }
{
    let free = free_state(alloc, classes, state, weights)?;
    let mut best: Option<Weighed> = None;
    for i in 0..cubes.len() {
        let next = candidate(alloc, classes, state, weights, &free, cubes.get(i))?;
        best = lighter(best, next);
    }
    Ok(best)
}
