//! The lightest mode of a set, and of those in which a component may stand.

ghost use Rattle.std.specs.Prelude.{◌≡◌, ◌<◌, ◌≤◌, ◌+◌, ℕ, IfOk, [], length, slice_index_or};
ghost use Rattle.cca_base.specs.Prelude.{IsState};
ghost use Rattle.cca_base.specs.declared.limits.TheConstants.{MAX_CHOICES};
ghost use Rattle.reversibility.specs.ClassParts.{in_row};
ghost use Rattle.wish_laws.specs.Lightest.{IsLightestOf};
ghost use Rattle.goal_interpreter.specs.Choosing.{IsFreeMode, IsLightestBelow};
ghost use Rattle.goal_interpreter.specs.Weights.{AreWeights};

use crate::weights::Weights;
use cca_base::{List, State, ValueSet};
use reversibility::Classes;
use std::alloc::{AllocError, Global};

/// The lightest of the set's modes below the next one.
#[tactic(auto, using(crate::proofs::LightModes::skipped, crate::proofs::LightModes::first_one, crate::proofs::LightModes::lighter_one, crate::proofs::LightModes::no_lighter))]
fn with_mode(row: &[u32], set: ValueSet, mode: u8, best: Option<u8>) -> Option<u8>
    requires mode { mode < length row.now }
    requires best { IsLightestBelow row.now set mode best }
    ensures { IsLightestBelow row.now set (mode + 1) result }
{
    if !set.has(mode) {
        return best;
    }
    match best {
        None => Some(mode),
        Some(x) => {
            if row[mode as usize] < row[x as usize] {
                Some(mode)
            } else {
                Some(x)
            }
        }
    }
}

/// The lightest of the modes in the set, the least among equals. None comes exactly where there is none.
fn lightest_of(row: &[u32], set: ValueSet) -> Option<u8>
    requires { length row.now ≤ MAX_CHOICES }
    ensures { IsLightestBelow row.now set (length row.now) result }
{
    let mut best: Option<u8> = None;
    for mode in 0..row.len() as u8 {
        best = with_mode(row, set, mode, best);
    }
    best
}

/// The lightest mode in which the component may stand: of its class, or its own where that is empty.
fn free_mode(classes: &Classes, state: &State, weights: &Weights, component: u16) -> u8
    requires component { component < length classes.now.compiled.model.components }
    requires state { IsState classes.now.compiled.model state.now.modes }
    requires weights { AreWeights classes.now.compiled.model weights.now.rows }
    ensures { IsFreeMode classes.now.compiled.model (in_row classes.now.rows) weights.now.rows
        state.now.modes component result }
{
    let row = weights.rows.get(component as usize).as_slice();
    match lightest_of(row, classes.class(component)) {
        Some(mode) => mode,
        None => *state.modes.get(component as usize),
    }
}

/// The lightest state in which each component stands where it may. The error is out of memory.
pub(crate) fn free_state(
    alloc: Global,
    classes: &Classes,
    state: &State,
    weights: &Weights,
) -> Result<State, AllocError>
    requires state { IsState classes.now.compiled.model state.now.modes }
    requires weights { AreWeights classes.now.compiled.model weights.now.rows }
    ensures { IfOk result (λ t. IsLightestOf classes.now.compiled.model (in_row classes.now.rows)
        weights.now.rows state.now.modes [] t.modes) }
{
    let components = classes.compiled().model().components();
    let mut modes = List::new(alloc);
    for c in 0..components.len() {
        modes.push(free_mode(classes, state, weights, c as u16))?;
    }
    Ok(State { modes })
}
