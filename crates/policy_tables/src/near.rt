//! The way to a mode by breadth-first levels: how far it is, and the first move that comes one nearer.

ghost use Rattle.std.specs.Prelude.{◌≡◌, ◌<◌, ℕ, List, MatchOption, length, slice_get, Some};
ghost use Rattle.policy_tables.specs.Distances.{AreRising, IsFirstLevel, IsNoLevel, NearAt, IsFirstPlace};
ghost use Rattle.reversibility.specs.Levels.{AreMovesWithin};

use cca_base::{Model, ValueSet};
use reversibility::Paths;

/// The first level at which the one mode leads to the other, found by halving.
pub(crate) fn distance(paths: &Paths, from: u8, to: u8) -> Option<usize>
    requires within { (k : ℕ) (level : List ℕ) → slice_get paths.now.levels k ≡ Some level →
        from < length level }
    requires rising { AreRising paths.now.levels from to }
    ensures { MatchOption result (IsNoLevel paths.now.levels from to) (IsFirstLevel paths.now.levels from to) }
{
    let mut low = 0;
    let mut high = paths.height();
    'halving: while low < high {
        let middle = low + (high - low) / 2;
        if paths.level(middle)[from as usize].has(to) {
            high = middle;
        } else {
            low = middle + 1;
        }
    }
    if low < paths.height() {
        return Some(low);
    }
    None
}

/// The place of the first of the moves from whose target the level leads to the mode.
pub(crate) fn first_near(
    model: &Model,
    numbers: &[u16],
    level: &[ValueSet],
    to: u8,
) -> Option<usize>
    requires { AreMovesWithin model.now (length level.now) numbers.now }
    ensures { MatchOption result
        ((k : ℕ) → k < length numbers.now → NearAt model.now numbers.now level.now to k → ⊥)
        (IsFirstPlace model.now numbers.now level.now to) }
{
    let moves = model.moves();
    for k in 0..numbers.len() {
        let target = moves.get(numbers[k] as usize).target;
        if level[target as usize].has(to) {
            return Some(k);
        }
    }
    None
}
