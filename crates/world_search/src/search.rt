//! The search: propagation, a choice, and after each clash a learned clause, until the values at hand are a world or some pairs are to blame.

ghost use Rattle.std.specs.Prelude.{◌≡◌, ℕ, Bool, ◌<◌, ◌++◌, false, List, length, slice_index, take, All, IsNone, IfSome};
ghost use Rattle.cca_base.specs.declared.cube.Pair.{Pair};
ghost use Rattle.clash_analysis.specs.Clashes.{NoneHas};
ghost use Rattle.clash_analysis.specs.Laws.{Passes};
ghost use Rattle.clash_analysis.specs.Subjects.{is_in};
ghost use Rattle.clash_analysis.specs.Trails.{AllWithin};
ghost use Rattle.world_search.specs.Choices.{AllMetBy, AreOf, IsOpen, IsOutcome, IsStep};
ghost use Rattle.world_search.specs.Stores.{AreKept, IsStore, KeepsClauses};
ghost use Rattle.world_search.specs.Asked.{AreAllMetIn};
ghost use Rattle.world_search.specs.Words.{AreMetIn, IsClauseInside};
ghost use Rattle.world_search.specs.Works.{IsClear, IsReady, IsRight, IsShaped};

use crate::activity::most_active;
use crate::choose::{Step, broken_of, choose_value, wish};
use crate::learn::learn_further;
use crate::propagate::follow_all;
use crate::rules::Rules;
use crate::store::Store;
use crate::words::WordClause;
use crate::work::Work;
use cca_base::Pair;
use clash_analysis::SubjectSet;

/// After how many clashes of a question the choice goes by what clashes name.
const PATIENCE: usize = 20;

/// The pair to try where a question is hard.
fn late_pair(work: &Work, store: &Store, trial: &[u8]) -> Option<Pair>
    requires ready { IsReady work.now }
    requires store { IsStore (length work.now.dom.items) store.now }
    requires long { length trial.now ≡ length work.now.dom.items }
    requires trial { AreOf work.now.dom.items trial.now }
    ensures { IfSome result (IsOpen work.now.dom.items) }
{
    if store.clashes < PATIENCE {
        return None;
    }
    most_active(&work.dom, trial, &store.activity)
}

/// Follows the trail, and tries a value if that shows neither a world nor a clash.
fn step(
    rules: &Rules,
    beside: &[WordClause],
    work: &mut Work,
    store: &mut Store,
    world: &[u8],
    trial: &mut [u8],
) -> Step
    requires ready { IsReady work.old }
    requires inside { All (IsClauseInside (length work.old.dom.items)) rules.now.clauses.items }
    requires beside { All (IsClauseInside (length work.old.dom.items)) beside.now }
    requires store { IsStore (length work.old.dom.items) store.old }
    requires clear { IsClear work.old }
    requires world { length world.now ≡ length work.old.dom.items }
    requires trial { length trial.old ≡ length work.old.dom.items }
    ensures step { IsStep (AreAllMetIn (rules.now.clauses.items ++ beside.now) (take store.old.kept store.old.slots.items)) work.old work.new }
    ensures outcome { IsOutcome (AreAllMetIn (rules.now.clauses.items ++ beside.now) (take store.old.kept store.old.slots.items))
        (rules.now.clauses.items ++ beside.now) work.old work.new trial.new result }
    ensures store { KeepsClauses store.old store.new }
    ensures long { length trial.new ≡ length trial.old }
{
    let kept = store.kept;
    let slots = &store.slots.as_slice()[..kept];
    if follow_all(rules, beside, slots, &mut store.notes, work) {
        return Step::Clash;
    }
    wish(&work.dom, world, trial);
    let Some(clause) = broken_of(rules.clauses.as_slice(), beside, trial) else {
        return Step::Found;
    };
    let late = late_pair(work, store, trial);
    if choose_value(clause.literals.as_slice(), work, trial, late) {
        Step::Clash
    } else {
        Step::Tried
    }
}

/// Searches for a world of what is left. None comes where one is found; else no world has the pairs of the subjects that come.
pub fn search_world(
    rules: &Rules,
    beside: &[WordClause],
    work: &mut Work,
    store: &mut Store,
    world: &[u8],
    trial: &mut [u8],
) -> Option<SubjectSet>
    requires ready { IsReady work.old }
    requires inside { All (IsClauseInside (length work.old.dom.items)) rules.now.clauses.items }
    requires beside { All (IsClauseInside (length work.old.dom.items)) beside.now }
    requires store { IsStore (length work.old.dom.items) store.old }
    requires clear { IsClear work.old }
    requires levels { work.old.levels ≡ 0 }
    requires world { length world.now ≡ length work.old.dom.items }
    requires trial { length trial.old ≡ length work.old.dom.items }
    requires right { (pairs : List Pair) × IsRight (λ _. false) pairs work.old }
    ensures shape { IsShaped work.new }
    ensures start { work.new.start.items ≡ work.old.start.items }
    ensures room { length work.new.trail.items ≡ length work.old.trail.items }
    ensures store { IsStore (length work.old.dom.items) store.new }
    ensures long { length trial.new ≡ length trial.old }
    ensures left { IsNone result → AreOf work.old.dom.items trial.new }
    ensures met { IsNone result → AllMetBy trial.new (rules.now.clauses.items ++ beside.now) }
    ensures kept { (want : List ℕ → Bool) (pairs : List Pair) → AreMetIn (rules.now.clauses.items ++ beside.now) want →
        AllWithin (Passes want) work.old.start.items → IsRight want pairs work.old → AreKept store.old want →
        AreKept store.new want }
    ensures blamed { IfSome result (λ set. (want : List ℕ → Bool) (pairs : List Pair) →
        AreMetIn (rules.now.clauses.items ++ beside.now) want →
        AreKept store.old want → AllWithin (Passes want) work.old.start.items → IsRight want pairs work.old →
        NoneHas want pairs (is_in set)) }
{
    'rounds: loop {
        match step(rules, beside, work, store, world, trial) {
            Step::Found => {
                return None;
            }
            Step::Tried => {}
            Step::Clash => {
                if let Some(blamed) = learn_further(work, store) {
                    return Some(blamed);
                }
            }
        }
    }
}
