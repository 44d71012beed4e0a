//! The least code of an event whose names are known.

ghost use Rattle.std.specs.Prelude.{◌≡◌, not};
ghost use Rattle.std.specs.List.{list_any};
ghost use Rattle.cca_base.specs.Prelude.{has};
ghost use Rattle.script_reader.specs.EventCodes.{has_item, has_item_twice, is_sensed, is_broken_pair, observe_code, mirror_code};

use crate::context::Context;
use cca_base::codes::{MIRRORED, NOT_SENSED, REPEATED_PAIR};
use cca_base::{Model, Pair, VarSet};

/// Whether one of the pairs is of the item.
pub fn has_item(pairs: &[Pair], item: u16) -> bool
    ensures { result ≡ has_item pairs.now item }
{
    pairs.iter().any(|p| p.item == item)
}

/// Whether two of the pairs are of one item.
pub fn has_item_twice(pairs: &[Pair]) -> bool
    ensures { result ≡ has_item_twice pairs.now }
{
    for (i, pair) in pairs.iter().enumerate() {
        if has_item(&pairs[i + 1..], pair.item) {
            return true;
        }
    }
    false
}

/// Whether the variable is sensed.
pub fn is_sensed(model: &Model, v: u16) -> bool
    ensures { result ≡ is_sensed model.now v }
{
    match model.variables().as_slice().get(v as usize) {
        Some(variable) => variable.sensed,
        None => false,
    }
}

/// Whether a pair has a broken mode.
pub fn has_broken(model: &Model, pairs: &[Pair]) -> bool
    ensures { result ≡ list_any (is_broken_pair model.now) pairs.now }
{
    pairs.iter().any(|p| model.broken(p.item, p.value))
}

fn has_unsensed(model: &Model, pairs: &[Pair]) -> bool
    ensures { result ≡ list_any (λ p. not (is_sensed model.now p.item)) pairs.now }
{
    pairs.iter().any(|p| !is_sensed(model, p.item))
}

fn has_pending(pending: &[Pair], pairs: &[Pair]) -> bool
    ensures { result ≡ list_any (λ p. has_item pending.now p.item) pairs.now }
{
    pairs.iter().any(|p| has_item(pending, p.item))
}

fn has_mirrored(mirrored: VarSet, pairs: &[Pair]) -> bool
    ensures { result ≡ list_any (λ p. has mirrored p.item) pairs.now }
{
    pairs.iter().any(|p| mirrored.has(p.item))
}

/// The least code of observations.
#[tactic(auto, unfolding(crate::specs::EventCodes::observe_code))]
pub fn observe_code(context: &Context, pairs: &[Pair]) -> Option<u8>
    ensures { result ≡ observe_code context.now.model context.now.pending.now
        context.now.mirrored
        pairs.now }
{
    if has_unsensed(context.model.model(), pairs) {
        Some(NOT_SENSED)
    } else if has_item_twice(pairs) || has_pending(context.pending, pairs) {
        Some(REPEATED_PAIR)
    } else if has_mirrored(context.mirrored, pairs) {
        Some(MIRRORED)
    } else {
        None
    }
}

/// The least code of a variable that is to be mirrored.
#[tactic(auto, unfolding(crate::specs::EventCodes::mirror_code))]
pub fn mirror_code(context: &Context, v: u16) -> Option<u8>
    ensures { result ≡ mirror_code context.now.model context.now.pending.now
        context.now.mirrored
        v }
{
    if !is_sensed(context.model.model(), v) {
        Some(NOT_SENSED)
    } else if has_item(context.pending, v) {
        Some(REPEATED_PAIR)
    } else if context.mirrored.has(v) {
        Some(MIRRORED)
    } else {
        None
    }
}
