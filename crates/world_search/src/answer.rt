//! The answer to a question.

ghost use Rattle.std.specs.Prelude.{◌≡◌, ℕ, Bool, ◌<◌, ◌++◌, true, List, length, take, Contains, All};
ghost use Rattle.cca_base.specs.declared.cube.Pair.{Pair};
ghost use Rattle.clash_analysis.specs.Clashes.{NoneHas};
ghost use Rattle.clash_analysis.specs.Laws.{Passes};
ghost use Rattle.clash_analysis.specs.Subjects.{is_in};
ghost use Rattle.clash_analysis.specs.Trails.{AllWithin};
ghost use Rattle.world_search.specs.Assumed.{AreAsked, IsLost};
ghost use Rattle.world_search.specs.Choices.{AllMetBy, AreOf};
ghost use Rattle.world_search.specs.Stores.{AreKept};
ghost use Rattle.world_search.specs.Asked.{AreAllMetIn};
ghost use Rattle.world_search.specs.Spaces.{AreBuffers, KeepsSearch, world_in};
ghost use Rattle.world_search.specs.Words.{AreMetIn, IsClauseInside};
ghost use Rattle.world_search.specs.Works.{IsReady, IsRight, IsRoomy, IsShaped};
ghost use Rattle.world_search.specs.Worlds.{HasAll, IsAnswerOn};

use crate::assume::assume_all;
use crate::choose::broken;
use crate::mend::mend;
use crate::restart::restart_at;
use crate::rules::Rules;
use crate::search::search_world;
use crate::space::Space;
use crate::words::WordClause;
use crate::work::Work;
use cca_base::Pair;
use clash_analysis::{SubjectSet, blame, no_subject, with_subject};

/// Whether some world has the pairs of a question.
pub enum Answer {
    /// Some world has them all.
    Agrees,
    /// No world has those that are of these subjects.
    Clash(SubjectSet),
}

/// The subject of a lost pair, and those whose pairs took its value.
fn blame_pair(work: &mut Work, pair: Pair) -> SubjectSet
    requires ready { IsReady work.old }
    requires levels { work.old.levels ≡ 0 }
    requires subject { pair.item < length work.old.dom.items }
    requires lost { IsLost pair work.old }
    ensures shape { IsShaped work.new }
    ensures start { work.new.start.items ≡ work.old.start.items }
    ensures room { length work.new.trail.items ≡ length work.old.trail.items }
    ensures blamed { (want : List ℕ → Bool) (pairs : List Pair) → Contains pairs pair →
        AllWithin (Passes want) work.old.start.items →
        IsRight want pairs work.old → NoneHas want pairs (is_in result) }
{
    let mut blamed = with_subject(&no_subject(), pair.item);
    let long = work.long;
    blame(
        &work.start,
        &mut work.dom,
        &mut work.learn,
        &work.trail.as_slice()[..long],
        &mut blamed,
    );
    blamed
}

/// Whether the world at hand can be mended so that it has the pairs. It is then, and the mended one is at hand.
fn is_mended(rules: &Rules, beside: &[WordClause], space: &mut Space, pairs: &[Pair]) -> bool
    requires buffers { AreBuffers (length space.old.base.items) space.old }
    requires roomy { IsRoomy space.old.work }
    requires inside { All (IsClauseInside (length space.old.base.items)) rules.now.clauses.items }
    requires beside { All (IsClauseInside (length space.old.base.items)) beside.now }
    requires asked { AreAsked (length space.old.base.items) pairs.now }
    ensures buffers { AreBuffers (length space.old.base.items) space.new }
    ensures same { KeepsSearch space.old space.new }
    ensures answer { result ≡ true → AreOf space.old.work.start.items (world_in space.new)
        × AllMetBy (world_in space.new) (rules.now.clauses.items ++ beside.now) × HasAll pairs.now (world_in space.new) }
{
    if !mend(
        rules,
        &space.work.start,
        &space.world,
        &mut space.trial,
        &mut space.mending,
        pairs,
    ) || broken(beside, &space.trial).is_some()
    {
        return false;
    }
    space.world.copy_from_slice(&space.trial);
    true
}

/// Whether some world of the clauses, and of what is left, has the pairs. If so it is put in the place of the world at hand.
pub fn answer_on(rules: &Rules, beside: &[WordClause], space: &mut Space, pairs: &[Pair]) -> Answer
    requires buffers { AreBuffers (length space.old.base.items) space.old }
    requires roomy { IsRoomy space.old.work }
    requires inside { All (IsClauseInside (length space.old.base.items)) rules.now.clauses.items }
    requires beside { All (IsClauseInside (length space.old.base.items)) beside.now }
    requires asked { AreAsked (length space.old.base.items) pairs.now }
    ensures buffers { AreBuffers (length space.old.base.items) space.new }
    ensures start { space.new.work.start.items ≡ space.old.work.start.items }
    ensures room { length space.new.work.trail.items ≡ length space.old.work.trail.items }
    ensures base { space.new.base.items ≡ space.old.base.items }
    ensures stuck { space.new.stuck ≡ space.old.stuck }
    ensures kept { (want : List ℕ → Bool) → AreMetIn (rules.now.clauses.items ++ beside.now) want →
        AllWithin (Passes want) space.old.work.start.items → AreKept space.old.store want → AreKept space.new.store want }
    ensures answer { IsAnswerOn (AreAllMetIn (rules.now.clauses.items ++ beside.now) (take space.old.store.kept space.old.store.slots.items))
        (rules.now.clauses.items ++ beside.now) space.old.work.start.items (world_in space.new) pairs.now result }
{
    if is_mended(rules, beside, space, pairs) {
        return Answer::Agrees;
    }
    restart_at(&mut space.work);
    if let Some(pair) = assume_all(&mut space.work, pairs) {
        return Answer::Clash(blame_pair(&mut space.work, pair));
    }
    space.store.clashes = 0;
    if let Some(blamed) = search_world(
        rules,
        beside,
        &mut space.work,
        &mut space.store,
        &space.world,
        &mut space.trial,
    ) {
        return Answer::Clash(blamed);
    }
    space.world.copy_from_slice(&space.trial);
    Answer::Agrees
}
