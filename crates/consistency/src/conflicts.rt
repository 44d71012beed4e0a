//! The pairs of a state that are to blame that no world of it agrees with what is seen, by deletion: each pair is tried
//! once, in component order. An answer names the components that had to do with a clash, its core, so that only pairs
//! of cores cost a question.

ghost use Rattle.std.specs.Prelude.{◌≡◌, [], ◌++◌, ◌↔◌, All, IfOk, IfSome, IsNone};
ghost use Rattle.cca_base.specs.Prelude.{pairs_of, CanShow, HasMode, HasValue, IsConflict, IsCube, IsState, KeepsOfClash};
ghost use Rattle.consistency.specs.Cores.{IsCore, IsShowable};
ghost use Rattle.consistency.specs.Spaces.{IsWorldSpace};

use crate::asking::ask;
use crate::pairs::{all_pairs, joined};
use crate::rules::Rules;
use crate::world_space::WorldSpace;
use crate::worlds::Worlds;
use cca_base::{Cube, Model, Pair, Seen, State};
use clash_analysis::{SubjectSet, has_subject};
use std::alloc::{AllocError, Global};
use world_search::Answer;

/// The components that are to blame that no state which extends the modes has a world that agrees with what is seen. None
/// comes where some state has one.
fn core_of(rules: &Rules, modes: &Cube, seen: &Seen, space: &mut WorldSpace) -> Option<SubjectSet>
    requires modes { All (λ p. HasMode rules.now.model.now p.item p.value) modes.now }
    requires seen { All (λ p. HasValue rules.now.model.now p.item p.value) seen.now.pairs }
    requires space { IsWorldSpace rules.now.worlds.now space.old }
    ensures some { IfSome result (IsCore rules.now.model.now seen.now.pairs modes.now) }
    ensures none { IsNone result → IsShowable rules.now.model.now seen.now.pairs modes.now }
    ensures space { IsWorldSpace rules.now.worlds.now space.new }
{
    let worlds = rules.worlds;
    match ask(
        rules.model,
        &worlds.problem,
        modes.as_slice(),
        seen.pairs.as_slice(),
        space,
    ) {
        Answer::Agrees => None,
        Answer::Clash(blamed) => Some(blamed),
    }
}

/// The same of the modes that were kept with those that are still to be tried.
pub fn core_left(
    rules: &Rules,
    kept: &Cube,
    behind: &[Pair],
    seen: &Seen,
    space: &mut WorldSpace,
) -> Result<Option<SubjectSet>, AllocError>
    requires cube { IsCube (kept.now ++ behind.now) }
    requires modes { All (λ p. HasMode rules.now.model.now p.item p.value)
        (kept.now ++ behind.now) }
    requires seen { All (λ p. HasValue rules.now.model.now p.item p.value) seen.now.pairs }
    requires space { IsWorldSpace rules.now.worlds.now space.old }
    ensures some { IfOk result (λ o.
        IfSome o (IsCore rules.now.model.now seen.now.pairs (kept.now ++ behind.now))) }
    ensures none { IfOk result (λ o.
        IsNone o → IsShowable rules.now.model.now seen.now.pairs (kept.now ++ behind.now)) }
    ensures space { IsWorldSpace rules.now.worlds.now space.new }
{
    let others = joined(rules.alloc, kept, behind)?;
    Ok(core_of(rules, &others, seen, space))
}

/// The pairs of a state, with subjects among them that are to blame that no world of it agrees with what is seen.
#[derive(Drop)]
pub struct Blamed {
    pub pairs: Cube,
    pub core: SubjectSet,
}

/// What is to blame that no world of the state agrees with what is seen. None comes exactly where some world does.
pub fn blame_of(
    rules: &Rules,
    state: &State,
    seen: &Seen,
    space: &mut WorldSpace,
) -> Result<Option<Blamed>, AllocError>
    requires state { IsState rules.now.model.now state.now.modes }
    requires seen { All (λ p. HasValue rules.now.model.now p.item p.value) seen.now.pairs }
    requires space { IsWorldSpace rules.now.worlds.now space.old }
    ensures pairs { IfOk result (λ o. IfSome o (λ b. b.pairs ≡ pairs_of state.now.modes)) }
    ensures core { IfOk result (λ o. IfSome o (λ b.
        IsCore rules.now.model.now seen.now.pairs b.pairs b.core)) }
    ensures none { IfOk result (λ o.
        IsNone o ↔ CanShow rules.now.model.now state.now.modes seen.now.pairs) }
    ensures space { IsWorldSpace rules.now.worlds.now space.new }
{
    let pairs = all_pairs(rules.alloc, rules.model, state)?;
    match core_of(rules, &pairs, seen, space) {
        Some(core) => Ok(Some(Blamed { pairs, core })),
        None => Ok(None),
    }
}

/// What is kept of the pairs, each of which is tried once. A pair outside the last core is dropped and no question is
/// asked: the core clashes without it.
fn kept_of(
    rules: &Rules,
    pairs: &Cube,
    seen: &Seen,
    core: SubjectSet,
    space: &mut WorldSpace,
) -> Result<Cube, AllocError>
    requires pairs { All (λ p. HasMode rules.now.model.now p.item p.value) pairs.now }
    requires seen { All (λ p. HasValue rules.now.model.now p.item p.value) seen.now.pairs }
    requires core { IsCore rules.now.model.now seen.now.pairs pairs.now core }
    requires space { IsWorldSpace rules.now.worlds.now space.old }
    ensures { IfOk result (KeepsOfClash rules.now.model.now seen.now.pairs [] pairs.now) }
{
    let mut kept = Cube::new(rules.alloc);
    let mut core = core;
    for (at, pair) in pairs.as_slice().iter().enumerate() {
        if has_subject(&core, pair.item) {
            let behind = &pairs.as_slice()[at + 1..];
            match core_left(rules, &kept, behind, seen, space)? {
                Some(smaller) => core = smaller,
                None => kept.push(*pair)?,
            }
        }
    }
    Ok(kept)
}

/// Why no world of the state agrees with what is seen: of the state's pairs, each tried in component order, those that
/// are kept since some state that extends the others has such a world. None comes exactly where the state has a world
/// that agrees. The error is out of memory.
pub fn conflict(
    alloc: Global,
    model: &Model,
    state: &State,
    seen: &Seen,
) -> Result<Option<Cube>, AllocError>
    requires state { IsState model.now state.now.modes }
    requires seen { All (λ p. HasValue model.now p.item p.value) seen.now.pairs }
    ensures some { IfOk result (λ o.
        IfSome o (IsConflict model.now state.now.modes seen.now.pairs)) }
    ensures none { IfOk result (λ o. IsNone o ↔ CanShow model.now state.now.modes seen.now.pairs) }
{
    let worlds = Worlds::of(alloc, model)?;
    let rules = Rules {
        alloc,
        model,
        worlds: &worlds,
    };
    let mut space = worlds.space(alloc)?;
    match blame_of(&rules, state, seen, &mut space)? {
        Some(blamed) => {
            let kept = kept_of(&rules, &blamed.pairs, seen, blamed.core, &mut space)?;
            Ok(Some(kept))
        }
        None => Ok(None),
    }
}
