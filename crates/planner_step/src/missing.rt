//! The first pair that a state does not hold.

ghost use Rattle.std.specs.Prelude.{◌<◌, All, MatchOption, length};
ghost use Rattle.cca_base.specs.Prelude.{Extends, IsFirstMissing};

use cca_base::{Pair, State};

/// The first of the pairs that the state does not hold.
pub(crate) fn first_missing(state: &State, pairs: &[Pair]) -> Option<Pair>
    requires { All (λ p. p.item < length state.now.modes) pairs.now }
    ensures { MatchOption result
        (Extends state.now.modes pairs.now)
        (IsFirstMissing state.now.modes pairs.now) }
{
    for i in 0..pairs.len() {
        let pair = pairs[i];
        if *state.modes.get(pair.item as usize) != pair.value {
            return Some(pair);
        }
    }
    None
}
