//! The pairs of a question as assumptions.

ghost use Rattle.std.specs.Prelude.{◌≡◌, ℕ, Bool, ◌<◌, true, false, List, length, slice_index, Contains, IsNone, IfSome};
ghost use Rattle.cca_base.specs.Sets.{has};
ghost use Rattle.cca_base.specs.declared.cube.Pair.{Pair};
ghost use Rattle.cca_base.specs.declared.limits.TheConstants.{MAX_CHOICES};
ghost use Rattle.world_search.specs.Assumed.{AreAsked, AreHeld, IsLost};
ghost use Rattle.world_search.specs.Works.{IsClear, IsMoved, IsReady, IsRight};

use crate::work::{Work, narrow};
use cca_base::Pair;
use clash_analysis::Why;

/// Assumes the pair. False comes where its value isn't left: it is learned.
fn assume(work: &mut Work, pair: Pair) -> bool
    requires ready { IsReady work.old }
    requires levels { work.old.levels ≡ 0 }
    requires subject { pair.item < length work.old.dom.items }
    requires value { pair.value < MAX_CHOICES }
    requires clear { IsClear work.old }
    ensures ready { IsReady work.new }
    ensures moved { IsMoved work.old work.new }
    ensures fewer { (v a : ℕ) → has (slice_index work.new.dom.items v) a ≡ true →
        has (slice_index work.old.dom.items v) a ≡ true }
    ensures right { (want : List ℕ → Bool) (pairs : List Pair) → Contains pairs pair → IsRight want pairs work.old →
        IsRight want pairs work.new }
    ensures held { result ≡ true → IsClear work.new }
    ensures alone { result ≡ true → (a : ℕ) → has (slice_index work.new.dom.items pair.item) a ≡ true → a ≡ pair.value }
    ensures lost { result ≡ false → IsLost pair work.new }
{
    let at = pair.item as usize;
    let one = 1u64 << pair.value;
    let left = work.dom[at];
    if left & one == 0 {
        let start = work.start[at];
        work.learn[at] = one & start;
        return false;
    }
    if left & !one != 0 {
        narrow(work, pair.item, one, Why::Assumed);
    }
    true
}

/// Assumes the pairs, from the last one to the first. None comes where all are held; else the pair is lost that comes, and learned.
pub fn assume_all(work: &mut Work, pairs: &[Pair]) -> Option<Pair>
    requires ready { IsReady work.old }
    requires levels { work.old.levels ≡ 0 }
    requires asked { AreAsked (length work.old.dom.items) pairs.now }
    requires clear { IsClear work.old }
    ensures ready { IsReady work.new }
    ensures moved { IsMoved work.old work.new }
    ensures right { (want : List ℕ → Bool) → IsRight want pairs.now work.old → IsRight want pairs.now work.new }
    ensures clear { IsNone result → IsClear work.new }
    ensures held { IsNone result → AreHeld work.new.dom.items pairs.now }
    ensures lost { IfSome result (λ p. IsLost p work.new) }
    ensures among { IfSome result (λ p. Contains pairs.now p) }
{
    for i in (0..pairs.len()).rev() {
        let pair = pairs[i];
        if !assume(work, pair) {
            return Some(pair);
        }
    }
    None
}
