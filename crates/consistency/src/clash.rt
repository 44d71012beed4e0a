//! Why no world of a state agrees with what is seen, as the estimates ask it: in memory that is made once for many questions.

ghost use Rattle.std.specs.Prelude.{◌≡◌, ◌↔◌, ◌≤◌, true, false, All, IfOk, IfSome, IsNone, IsTrue, length};
ghost use Rattle.cca_base.specs.Prelude.{CanShow, Clash, HasMode, HasValue, IsCube, IsPart, IsState};
ghost use Rattle.consistency.specs.Cores.{IsClashOf, IsShowable, pairs_in};
ghost use Rattle.consistency.specs.Spaces.{IsWorldSpace};
ghost use Rattle.consistency.specs.Worlds.{AreWorldsOf};

use crate::asking::{ask, ask_state};
use crate::minimal::cube_in;
use crate::world_space::WorldSpace;
use crate::worlds::Worlds;
use bounded_list::BoundedList;
use cca_base::{Cube, Model, Pair, Seen, State};
use clash_analysis::{SubjectSet, has_subject};
use std::alloc::{AllocError, Global};
use world_search::{Answer, MAX_SLOTS};

/// Writes those of the pairs that are of these subjects.
fn write_in(subjects: &SubjectSet, pairs: &[Pair], among: &mut BoundedList<Pair>)
    requires { length pairs.now ≤ among.old.room }
    ensures items { among.new.items ≡ pairs_in subjects.now pairs.now }
    ensures room { among.new.room ≡ among.old.room }
{
    among.clear();
    for pair in pairs {
        if has_subject(subjects, pair.item) {
            among.push(*pair);
        }
    }
}

impl Worlds {
    /// Memory for questions of these worlds. The error is out of memory.
    pub fn space(&self, alloc: Global) -> Result<WorldSpace, AllocError>
        ensures { IfOk result (IsWorldSpace self.now) }
    {
        WorldSpace::of(alloc, &self.problem, MAX_SLOTS)
    }

    /// Less memory, for few questions: it has no room for learned clauses. The error is out of memory.
    pub fn small_space(&self, alloc: Global) -> Result<WorldSpace, AllocError>
        ensures { IfOk result (IsWorldSpace self.now) }
    {
        WorldSpace::of(alloc, &self.problem, 0)
    }

    /// Why no world of the state agrees with what is seen: a part of its pairs that no state with such a world extends.
    /// None comes exactly where the state has a world that agrees. The error is out of memory.
    pub fn clash(
        &self,
        alloc: Global,
        model: &Model,
        state: &State,
        seen: &Seen,
        space: &mut WorldSpace,
    ) -> Result<Option<Cube>, AllocError>
        requires of { AreWorldsOf model.now self.now }
        requires state { IsState model.now state.now.modes }
        requires seen { All (λ p. HasValue model.now p.item p.value) seen.now.pairs }
        requires space { IsWorldSpace self.now space.old }
        ensures some { IfOk result (λ o. IfSome o (IsClashOf model.now state.now.modes seen.now.pairs)) }
        ensures none { IfOk result (λ o. IsNone o ↔ CanShow model.now state.now.modes seen.now.pairs) }
        ensures space { IsWorldSpace self.now space.new }
    {
        match ask_state(model, &self.problem, state, seen.pairs.as_slice(), space) {
            Answer::Agrees => Ok(None),
            Answer::Clash(blamed) => {
                let pairs = &space.pairs.as_slice()[..state.modes.len()];
                Ok(Some(cube_in(alloc, &blamed, pairs)?))
            }
        }
    }

    /// Whether the state has a world that agrees with what is seen. It takes no memory but the caller's.
    pub fn agrees(
        &self,
        model: &Model,
        state: &State,
        seen: &[Pair],
        space: &mut WorldSpace,
    ) -> bool
        requires of { AreWorldsOf model.now self.now }
        requires state { IsState model.now state.now.modes }
        requires seen { All (λ p. HasValue model.now p.item p.value) seen.now }
        requires space { IsWorldSpace self.now space.old }
        ensures agrees { IsTrue result ↔ CanShow model.now state.now.modes seen.now }
        ensures space { IsWorldSpace self.now space.new }
    {
        match ask_state(model, &self.problem, state, seen, space) {
            Answer::Agrees => true,
            Answer::Clash(_blamed) => false,
        }
    }

    /// Whether no state that extends modes of some components has a world that agrees with what is seen: a part of the modes is written
    /// then that is to blame. It takes no memory but the caller's.
    pub fn clash_into(
        &self,
        model: &Model,
        modes: &[Pair],
        seen: &[Pair],
        space: &mut WorldSpace,
        clash: &mut BoundedList<Pair>,
    ) -> bool
        requires of { AreWorldsOf model.now self.now }
        requires cube { IsCube modes.now }
        requires modes { All (λ p. HasMode model.now p.item p.value) modes.now }
        requires seen { All (λ p. HasValue model.now p.item p.value) seen.now }
        requires space { IsWorldSpace self.now space.old }
        requires room { length modes.now ≤ clash.old.room }
        ensures part { result ≡ true → IsPart clash.new.items modes.now }
        ensures clash { result ≡ true → Clash model.now seen.now clash.new.items }
        ensures none { (result ≡ false) ↔ IsShowable model.now seen.now modes.now }
        ensures room { clash.new.room ≡ clash.old.room }
        ensures space { IsWorldSpace self.now space.new }
    {
        match ask(model, &self.problem, modes, seen, space) {
            Answer::Agrees => false,
            Answer::Clash(blamed) => {
                write_in(&blamed, modes, clash);
                true
            }
        }
    }

    /// The same of modes of some components: why no state that extends them has a world that agrees with what is seen. None
    /// comes exactly where some state has one. The error is out of memory.
    pub fn clash_among(
        &self,
        alloc: Global,
        model: &Model,
        modes: &[Pair],
        seen: &Seen,
        space: &mut WorldSpace,
    ) -> Result<Option<Cube>, AllocError>
        requires of { AreWorldsOf model.now self.now }
        requires cube { IsCube modes.now }
        requires modes { All (λ p. HasMode model.now p.item p.value) modes.now }
        requires seen { All (λ p. HasValue model.now p.item p.value) seen.now.pairs }
        requires space { IsWorldSpace self.now space.old }
        ensures part { IfOk result (λ o. IfSome o (λ cube. IsPart cube modes.now)) }
        ensures clash { IfOk result (λ o. IfSome o (Clash model.now seen.now.pairs)) }
        ensures none { IfOk result (λ o. IsNone o ↔ IsShowable model.now seen.now.pairs modes.now) }
        ensures space { IsWorldSpace self.now space.new }
    {
        match ask(model, &self.problem, modes, seen.pairs.as_slice(), space) {
            Answer::Agrees => Ok(None),
            Answer::Clash(blamed) => Ok(Some(cube_in(alloc, &blamed, modes)?)),
        }
    }
}
