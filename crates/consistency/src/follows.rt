//! Whether a formula follows from modes. Unit propagation answers most questions: first that of the rules which name a
//! subject of the denial and of those that these lead to, and then that of all rules. Else a counterexample is asked
//! for.

ghost use Rattle.std.specs.Prelude.{◌↔◌, length, All, IfOk, IsTrue};
ghost use Rattle.cca_base.specs.Prelude.{is_within, Follows, HasMode};
ghost use Rattle.cca_base.specs.declared.formula.Formula.{Formula};
ghost use Rattle.clause_form.specs.Formulas.{AreDenying};
ghost use Rattle.consistency.specs.Spaces.{IsWorldSpace};
ghost use Rattle.consistency.specs.Worlds.{AreWorldsOf};

use crate::asking::put_base;
use crate::denied::Denied;
use crate::refuted::is_refuted;
use crate::world_space::WorldSpace;
use crate::worlds::Worlds;
use cca_base::{Cube, Formula, Model, Pair};
use std::alloc::{AllocError, Global};
use world_search::Answer;

impl Worlds {
    /// Whether the formula that is denied is true in every world of every state that extends the modes. It takes no
    /// memory but the caller's.
    pub fn follows_by(
        &self,
        model: &Model,
        modes: &Cube,
        denied: &Denied,
        space: &mut WorldSpace,
    ) -> bool
        requires of { AreWorldsOf model.now self.now }
        requires modes { All (λ p. HasMode model.now p.item p.value) modes.now }
        requires denied { (f : Formula) × AreDenying model.now f denied.now }
        requires space { IsWorldSpace self.now space.old }
        ensures follows { (f : Formula) → AreDenying model.now f denied.now →
            (IsTrue result ↔ Follows model.now modes.now f) }
        ensures space { IsWorldSpace self.now space.new }
    {
        self.follows_from(model, modes.as_slice(), denied, space)
    }

    /// The same of modes that are no cube: a component may have several, and then no state extends them.
    pub fn follows_from(
        &self,
        model: &Model,
        modes: &[Pair],
        denied: &Denied,
        space: &mut WorldSpace,
    ) -> bool
        requires of { AreWorldsOf model.now self.now }
        requires modes { All (λ p. HasMode model.now p.item p.value) modes.now }
        requires denied { (f : Formula) × AreDenying model.now f denied.now }
        requires space { IsWorldSpace self.now space.old }
        ensures follows { (f : Formula) → AreDenying model.now f denied.now →
            (IsTrue result ↔ Follows model.now modes.now f) }
        ensures space { IsWorldSpace self.now space.new }
    {
        let problem = &self.problem;
        let beside = &denied.beside;
        let clauses = beside.clauses().clauses.as_slice();
        put_base(model, problem, modes, &[], space);
        problem.see_near(&mut space.search, &space.sets, beside);
        if is_refuted(problem, &space.search, clauses) {
            return true;
        }
        problem.see(&mut space.search, &space.sets);
        if is_refuted(problem, &space.search, clauses) {
            return true;
        }
        match problem.ask_beside(&mut space.search, beside, &[]) {
            Answer::Agrees => false,
            Answer::Clash(_blamed) => true,
        }
    }

    /// Whether the formula is true in every world of every state that extends the modes. The error is out of memory.
    pub fn follows(
        &self,
        alloc: Global,
        model: &Model,
        modes: &Cube,
        formula: &Formula,
    ) -> Result<bool, AllocError>
        requires of { AreWorldsOf model.now self.now }
        requires modes { All (λ p. HasMode model.now p.item p.value) modes.now }
        requires formula { IsTrue (is_within (length model.now.components)
            (length model.now.variables) formula.now) }
        ensures { IfOk result (λ b. IsTrue b ↔ Follows model.now modes.now formula.now) }
    {
        let denied = Denied::of(alloc, model, formula)?;
        let mut space = self.space(alloc)?;
        Ok(self.follows_by(model, modes, &denied, &mut space))
    }
}
