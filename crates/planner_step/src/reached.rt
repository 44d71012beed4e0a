//! The first pair that no allowed plan reaches.

ghost use Rattle.std.specs.Prelude.{◌<◌, ◌≤◌, ◌+◌, All, MatchOption, length};
ghost use Rattle.cca_base.specs.Prelude.{AreReached, IsFirstUnreached};
ghost use Rattle.reach_laws.specs.Plans.{IsSoundGoal};
ghost use Rattle.reversibility.specs.ClassParts.{CoversState};

use cca_base::{Pair, State, Steps};
use policy_tables::Tables;
use std::sync::ledger::Ledger;

/// The first of the pairs that no allowed plan reaches. It takes a step for each pair at most.
pub(crate) fn first_unreached<L: Ledger>(
    tables: &Tables,
    state: &State,
    pairs: &[Pair],
    steps: &mut Steps<L>,
) -> Option<Pair>
    requires covers { CoversState tables.now.classes state.now.modes }
    requires within { All (λ p. p.item < length state.now.modes) pairs.now }
    requires sound { IsSoundGoal tables.now.classes.compiled.model pairs.now }
    ensures value { MatchOption result
        (AreReached tables.now.classes.compiled.model state.now.modes pairs.now)
        (IsFirstUnreached tables.now.classes.compiled.model state.now.modes pairs.now) }
    ensures counts { steps.old ≤ steps.new }
    ensures steps { steps.new ≤ steps.old + length pairs.now }
{
    let _classes = tables.classes();
    for i in 0..pairs.len() {
        let pair = pairs[i];
        if !tables.reaches(pair.item, pair.value, state, steps) {
            return Some(pair);
        }
    }
    None
}
