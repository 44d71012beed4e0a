//! What the modes weigh, set line by line.

ghost use Rattle.std.specs.Prelude.{[], IfOk, OnErr, OnOk, length, slice_index_or, ◌<◌, ◌≡◌};
ghost use Rattle.goal_interpreter.specs.Weights.{AreWeights};
ghost use Rattle.want_form.specs.Wishes.{no_weights, with_weight};

use cca_base::{List, Model, Pair};
use goal_interpreter::Weights;
use std::alloc::{AllocError, Global};

/// No mode weighs anything. The error is out of memory.
pub fn no_weights(alloc: Global, model: &Model) -> Result<Weights, AllocError>
    ensures rows { IfOk result (λ w. w.rows ≡ no_weights model.now) }
    ensures weights { IfOk result (λ w. AreWeights model.now w.rows) }
{
    let mut rows = List::new(alloc);
    for component in model.components().as_slice() {
        rows.push(List::of(vec![in alloc; 0u32; component.modes.len()]?))?;
    }
    Ok(Weights { rows })
}

/// The pair's mode has this weight from now on. The error is out of memory, and then the weights are as they were.
pub fn set_weight(
    alloc: Global,
    weights: &mut Weights,
    pair: Pair,
    weight: u32,
) -> Result<(), AllocError>
    requires row { pair.item < length weights.old.rows }
    requires place { pair.value < length (slice_index_or weights.old.rows pair.item []) }
    ensures ok { OnOk result (weights.new.rows ≡ with_weight pair weight weights.old.rows) }
    ensures err { OnErr result (weights.new.rows ≡ weights.old.rows) }
{
    let mut row = weights.rows.get(pair.item as usize).copy(alloc)?;
    row.set(pair.value as usize, weight);
    weights.rows.set(pair.item as usize, row);
    Ok(())
}
