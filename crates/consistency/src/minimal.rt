//! A minimal clash of a state, by deletion over a core. One pair after the other is left out, the last one first: it is
//! kept where some state that extends the others has a world that agrees, and else only the pairs of their core go on.

ghost use Rattle.std.specs.Prelude.{◌≡◌, ◌↔◌, ℕ, List, All, IfOk, IfSome, IsNone};
ghost use Rattle.cca_base.specs.Prelude.{pairs_of, CanShow, Clash, HasMode, HasValue, IsCube, IsPart, IsState};
ghost use Rattle.consistency.specs.Conflict.{IsMinimalClash};
ghost use Rattle.consistency.specs.Cores.{pairs_in};
ghost use Rattle.consistency.specs.Spaces.{IsWorldSpace};
ghost use Rattle.consistency.specs.Worlds.{AreWorldsOf};

use crate::conflicts::{blame_of, core_left};
use crate::rules::Rules;
use crate::world_space::WorldSpace;
use crate::worlds::Worlds;
use cca_base::{Cube, Model, Pair, Seen, State};
use clash_analysis::{SubjectSet, has_subject};
use std::alloc::{AllocError, Global};

/// Those of the pairs that are of these subjects, as a cube.
pub fn cube_in(alloc: Global, subjects: &SubjectSet, pairs: &[Pair]) -> Result<Cube, AllocError>
    requires { IsCube pairs.now }
    ensures { IfOk result (λ c. c ≡ pairs_in subjects.now pairs.now) }
{
    let mut among = Cube::new(alloc);
    for pair in pairs {
        if has_subject(subjects, pair.item) {
            among.push(*pair)?;
        }
    }
    Ok(among)
}

/// A minimal part of the pairs that clashes.
fn minimal_part(
    rules: &Rules,
    pairs: Cube,
    seen: &Seen,
    space: &mut WorldSpace,
) -> Result<Cube, AllocError>
    requires modes { All (λ p. HasMode rules.now.model.now p.item p.value) pairs }
    requires seen { All (λ p. HasValue rules.now.model.now p.item p.value) seen.now.pairs }
    requires clash { Clash rules.now.model.now seen.now.pairs pairs }
    requires space { IsWorldSpace rules.now.worlds.now space.old }
    ensures { IfOk result (λ c. (s : List ℕ) → IsPart pairs (pairs_of s) →
        IsMinimalClash rules.now.model.now s seen.now.pairs c) }
{
    let mut kept = Cube::new(rules.alloc);
    let mut left = pairs;
    let mut count = left.len();
    'leaving: while count > 0 {
        count -= 1;
        let pair = *left.get(count);
        let others = &left.as_slice()[..count];
        match core_left(rules, &kept, others, seen, space)? {
            Some(core) => {
                left = cube_in(rules.alloc, &core, others)?;
                count = left.len();
            }
            None => kept.push(pair)?,
        }
    }
    Ok(kept)
}

impl Worlds {
    /// Why no world of the state agrees with what is seen: a part of its pairs that no state with such a world extends,
    /// while some such state extends what is left without any one of them. None comes exactly where the state has a
    /// world that agrees. The error is out of memory.
    pub fn minimal_clash(
        &self,
        alloc: Global,
        model: &Model,
        state: &State,
        seen: &Seen,
    ) -> Result<Option<Cube>, AllocError>
        requires of { AreWorldsOf model.now self.now }
        requires state { IsState model.now state.now.modes }
        requires seen { All (λ p. HasValue model.now p.item p.value) seen.now.pairs }
        ensures some { IfOk result (λ o.
            IfSome o (IsMinimalClash model.now state.now.modes seen.now.pairs)) }
        ensures none { IfOk result (λ o.
            IsNone o ↔ CanShow model.now state.now.modes seen.now.pairs) }
    {
        let rules = Rules {
            alloc,
            model,
            worlds: self,
        };
        let mut space = self.space(alloc)?;
        let Some(blamed) = blame_of(&rules, state, seen, &mut space)? else {
            return Ok(None);
        };
        let among = cube_in(alloc, &blamed.core, blamed.pairs.as_slice())?;
        Ok(Some(minimal_part(&rules, among, seen, &mut space)?))
    }
}
