//! A workspace before a question, and what all clauses leave of what is seen.

ghost use Rattle.std.specs.Prelude.{◌≡◌, ℕ, Bool, ◌+◌, ◌<◌, ◌≤◌, true, false, List, length, slice_index, All};
ghost use Rattle.cca_base.specs.Sets.{has};
ghost use Rattle.cca_base.specs.declared.cube.Pair.{Pair};
ghost use Rattle.cca_base.specs.declared.limits.TheConstants.{MAX_CHOICES};
ghost use Rattle.clash_analysis.specs.Ends.{count_all};
ghost use Rattle.clash_analysis.specs.Laws.{Passes};
ghost use Rattle.clash_analysis.specs.Trails.{AllWithin};
ghost use Rattle.world_search.specs.Settled.{AreWithinSets, NonePasses};
ghost use Rattle.world_search.specs.Words.{AreMetIn, IsClauseInside};
ghost use Rattle.world_search.specs.Works.{IsClear, IsReady, IsRight, IsRoomy, IsShaped};

use crate::propagate::follow_first;
use crate::rules::Rules;
use crate::words::WordClause;
use crate::work::Work;
use clash_analysis::clear;

/// Takes everything back.
pub fn restart_at(work: &mut Work)
    requires shape { IsShaped work.old }
    requires roomy { IsRoomy work.old }
    ensures ready { IsReady work.new }
    ensures clear { IsClear work.new }
    ensures levels { work.new.levels ≡ 0 }
    ensures start { work.new.start.items ≡ work.old.start.items }
    ensures dom { work.new.dom.items ≡ work.old.start.items }
    ensures room { length work.new.trail.items ≡ length work.old.trail.items }
    ensures right { (want : List ℕ → Bool) (pairs : List Pair) → IsRight want pairs work.new }
{
    work.dom.copy_from_slice(&work.start);
    clear(&mut work.learn);
    work.long = 0;
    work.levels = 0;
    work.head = 0;
}

/// Whether each set has a value.
fn all_some(base: &[u64]) -> bool
    ensures yes { result ≡ true → (v : ℕ) → v < length base.now → (a : ℕ) × (has (slice_index base.now v) a ≡ true) }
    ensures no { result ≡ false → (v : ℕ) × (v < length base.now) × (slice_index base.now v ≡ 0) }
{
    for v in 0..base.len() {
        if base[v] == 0 {
            return false;
        }
    }
    true
}

/// Begins with these sets, and what the clauses leave of them: all of them, or those that name a subject of the ones beside, if there are these, and what
/// follows. True comes where that is nothing: there is no world.
pub fn begin_with(rules: &Rules, near: Option<&[WordClause]>, work: &mut Work, base: &[u64]) -> bool
    requires shape { IsShaped work.old }
    requires base { length base.now ≡ length work.old.start.items }
    requires room { count_all MAX_CHOICES base.now ≤ length work.old.trail.items + length base.now }
    requires inside { All (IsClauseInside (length base.now)) rules.now.clauses.items }
    ensures shape { IsShaped work.new }
    ensures start { length work.new.start.items ≡ length base.now }
    ensures room { length work.new.trail.items ≡ length work.old.trail.items }
    ensures roomy { result ≡ false → IsRoomy work.new }
    ensures within { result ≡ false → AreWithinSets work.new.start.items base.now }
    ensures all { result ≡ false → (want : List ℕ → Bool) → AreMetIn rules.now.clauses.items want →
        AllWithin (Passes want) base.now → AllWithin (Passes want) work.new.start.items }
    ensures stuck { result ≡ true → (want : List ℕ → Bool) → AreMetIn rules.now.clauses.items want →
        AllWithin (Passes want) base.now → NonePasses want }
{
    if !all_some(base) {
        return true;
    }
    work.start.copy_from_slice(base);
    restart_at(work);
    if follow_first(rules, near, work) {
        return true;
    }
    work.start.copy_from_slice(&work.dom);
    false
}
