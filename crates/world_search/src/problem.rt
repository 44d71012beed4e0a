//! Clauses, made ready once for all questions.

ghost use Rattle.std.specs.Prelude.{◌≡◌, ℕ, ◌-◌, ◌<◌, ◌≤◌, ◌++◌, true, List, length, slice_index, sum_by, IfOk};
ghost use Rattle.cca_base.specs.Sets.{has};
ghost use Rattle.clash_analysis.specs.declared.subjects.TheConstants.{SET_SUBJECTS};
ghost use Rattle.clause_form.specs.Clauses.{AreClauses};
ghost use Rattle.world_search.specs.Assumed.{AreAsked};
ghost use Rattle.world_search.specs.Spaces.{AreBuffers, AreInSizes, IsSpace, base_in, world_in};
ghost use Rattle.world_search.specs.Worlds.{IsAnswer, IsSolution};

use crate::answer::{Answer, answer_on};
use crate::beside::Beside;
use crate::mend::Mending;
use crate::restart::begin_with;
use crate::room::{room_for, work_of};
use crate::rules::{Rules, rules_of};
use crate::seen::put_words;
use crate::space::Space;
use crate::store::{forget, store_for};
use crate::vary::vary_from;
use crate::words::WordClause;
use cca_base::{Pair, ValueSet};
use clash_analysis::no_subject;
use clause_form::{Clauses, Sizes};
use std::alloc::{AllocError, Global};
use std::marker::Model;

/// Clauses whose worlds are sought. A contract sees the clauses.
#[derive(Drop)]
pub struct Problem {
    clauses: Clauses,
    /// The same clauses with words for sets.
    rules: Rules,
}

impl Model for Problem {
    ghost use Rattle.clause_form.specs.declared.clause.Clauses.{Clauses};
    ghost use Rattle.world_search.specs.Spaces.{IsBuilt};

    ghost Value = { Clauses };

    ghost view = { λ p. p.clauses };

    ghost invariant = { λ p. IsBuilt p.clauses p.rules };
}

impl Problem {
    /// The clauses. The first subjects, so many of them, are mended before all others. The error is out of memory.
    pub fn of(alloc: Global, clauses: Clauses, preferred: usize) -> Result<Problem, AllocError>
        requires few { length clauses.sizes ≤ SET_SUBJECTS }
        requires below { AreClauses clauses }
        ensures { IfOk result (λ p. p ≡ clauses) }
    {
        let subjects = clauses.sizes.len();
        let rules = rules_of(alloc, clauses.clauses.as_slice(), subjects, preferred)?;
        Ok(Problem { clauses, rules })
    }

    /// The clauses, as they were given.
    pub fn clauses(&self) -> &Clauses
        ensures value { result.now ≡ self.now }
        ensures few { length self.now.sizes ≤ SET_SUBJECTS }
        ensures below { AreClauses self.now }
    {
        &self.clauses
    }

    /// Buffers for questions, with room for at most so many learned clauses. Until `see` says what each subject may be, it may be nothing. The error is out
    /// of memory.
    pub fn space(&self, alloc: Global, learned: usize) -> Result<Space, AllocError>
        ensures space { IfOk result (IsSpace self.now) }
        ensures none { IfOk result (λ s. (v : ℕ) → slice_index (base_in s) v ≡ 0) }
    {
        let room = room_for(&self.clauses.sizes, learned);
        let base = vec![in alloc; 0; room.subjects]?;
        let work = work_of(alloc, &room)?;
        let store = store_for(alloc, room.slots, room.subjects)?;
        let world = vec![in alloc; 0; room.subjects]?;
        let trial = vec![in alloc; 0; room.subjects]?;
        let mending = Mending {
            fixed: vec![in alloc; false; room.subjects]?,
            queue: vec![in alloc; 0; room.subjects]?,
            end: 0,
        };
        let mut space = Space {
            base,
            work,
            store,
            world,
            trial,
            mending,
            stuck: true,
            near: false,
        };
        self.begin(&mut space, None);
        Ok(space)
    }

    /// Begins anew with the sets that the buffers have. With clauses beside, only what names a subject of theirs is looked at first.
    fn begin(&self, space: &mut Space, near: Option<&[WordClause]>)
        requires buffers { AreBuffers (length self.now.sizes) space.old }
        requires room { length space.old.work.trail.items ≡ sum_by (λ n. n - 1) self.now.sizes }
        requires sizes { AreInSizes self.now.sizes (base_in space.old) }
        ensures space { IsSpace self.now space.new }
        ensures base { base_in space.new ≡ base_in space.old }
        ensures world { world_in space.new ≡ world_in space.old }
    {
        space.near = near.is_some();
        forget(&mut space.store);
        space.stuck = begin_with(&self.rules, near, &mut space.work, &space.base);
    }

    /// From now on each subject may be what its set says. Where all clauses have been looked at with these sets, nothing is done.
    pub fn see(&self, space: &mut Space, sets: &[ValueSet])
        requires space { IsSpace self.now space.old }
        requires full { length sets.now ≡ length self.now.sizes }
        requires sizes { AreInSizes self.now.sizes sets.now }
        ensures space { IsSpace self.now space.new }
        ensures base { base_in space.new ≡ sets.now }
        ensures world { world_in space.new ≡ world_in space.old }
    {
        if put_words(sets, &mut space.base) || space.near {
            self.begin(space, None);
        }
    }

    /// The same, but where the sets are others, only the clauses are looked at that name a subject of those beside, and what follows. It is less work. Where
    /// they are those of the last such call, all clauses are looked at, so that more questions of them find all done.
    pub fn see_near(&self, space: &mut Space, sets: &[ValueSet], beside: &Beside)
        requires space { IsSpace self.now space.old }
        requires full { length sets.now ≡ length self.now.sizes }
        requires sizes { AreInSizes self.now.sizes sets.now }
        ensures space { IsSpace self.now space.new }
        ensures base { base_in space.new ≡ sets.now }
        ensures world { world_in space.new ≡ world_in space.old }
    {
        if put_words(sets, &mut space.base) {
            self.begin(space, Some(beside.words.as_slice()));
        } else if space.near {
            self.begin(space, None);
        }
    }

    /// What unit propagation leaves of the subject's values, as a word: the value of each world is among it. It is 0 where it is known that there is no world.
    pub fn left(&self, space: &Space, subject: usize) -> u64
        requires space { IsSpace self.now space.now }
        requires subject { subject < length self.now.sizes }
        ensures world { (xs : List ℕ) → IsSolution self.now.clauses (base_in space.now) xs →
            has result (slice_index xs subject) ≡ true }
        ensures within { (a : ℕ) → has result a ≡ true → has (slice_index (base_in space.now) subject) a ≡ true }
    {
        if space.stuck {
            0
        } else {
            space.work.start[subject]
        }
    }

    /// Puts another value at hand for each subject that has one left. So the next question begins far from the world that was found last.
    pub fn vary(&self, space: &mut Space)
        requires space { IsSpace self.now space.old }
        ensures space { IsSpace self.now space.new }
        ensures base { base_in space.new ≡ base_in space.old }
    {
        vary_from(&space.work.start, &mut space.world);
    }

    /// Whether some world has the pairs. If so it is the world at hand from now on. Else no world has those that are of the subjects which come.
    pub fn ask(&self, space: &mut Space, pairs: &[Pair]) -> Answer
        requires space { IsSpace self.now space.old }
        requires pairs { AreAsked (length self.now.sizes) pairs.now }
        ensures space { IsSpace self.now space.new }
        ensures base { base_in space.new ≡ base_in space.old }
        ensures answer { IsAnswer self.now.clauses (base_in space.new) (world_in space.new) pairs.now result }
    {
        if space.stuck {
            return Answer::Clash(no_subject());
        }
        answer_on(&self.rules, &[], space, pairs)
    }

    /// The same of the worlds in which the clauses beside are true too.
    pub fn ask_beside(&self, space: &mut Space, beside: &Beside, pairs: &[Pair]) -> Answer
        requires space { IsSpace self.now space.old }
        requires beside { beside.now.sizes ≡ self.now.sizes }
        requires pairs { AreAsked (length self.now.sizes) pairs.now }
        ensures space { IsSpace self.now space.new }
        ensures base { base_in space.new ≡ base_in space.old }
        ensures answer { IsAnswer (self.now.clauses ++ beside.now.clauses) (base_in space.new) (world_in space.new) pairs.now result }
    {
        if space.stuck {
            return Answer::Clash(no_subject());
        }
        let answer = answer_on(&self.rules, beside.words.as_slice(), space, pairs);
        forget(&mut space.store);
        answer
    }
}
