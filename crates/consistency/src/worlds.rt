//! The clauses of a model's rules, made once for many questions.

ghost use Rattle.std.specs.Prelude.{length, All, IfOk, IsNone, IsTrue, None, Option};
ghost use Rattle.cca_base.specs.Prelude.{is_within, Follows, HasMode, HasValue};
ghost use Rattle.cca_base.specs.declared.formula.Formula.{Formula};
ghost use Rattle.clause_form.specs.Formulas.{AreClausesOf};
ghost use Rattle.consistency.specs.Found.{FitsSeen, Counters, FitsAndDenies, IsFirstFound};

use crate::asking::see;
use crate::denied::denied_problem;
use crate::first::first_world;
use crate::found::{Found, split};
use crate::rules::Rules;
use crate::world_space::WorldSpace;
use cca_base::{Cube, Formula, Model, Pair, Seen};
use clause_form::clauses_of;
use std::alloc::{AllocError, Global};
use world_search::{MAX_SLOTS, Problem};

/// The clauses of a model's rules, for all questions of its worlds.
#[derive(Drop)]
pub struct Worlds {
    pub(crate) problem: Problem,
}

impl std::marker::Model for Worlds {
    ghost use Rattle.clause_form.specs.declared.clause.Clauses.{Clauses};

    ghost Value = { Clauses };

    ghost view = { λ w. w.problem };
}

/// The first state and world that fit and have the denied formula false, if there is one.
fn first_found(
    alloc: Global,
    model: &Model,
    problem: &Problem,
    modes: &[Pair],
    seen: &[Pair],
) -> Result<Option<Found>, AllocError>
    requires of { (denied : Option Formula) × AreClausesOf model.now None denied problem.now }
    requires modes { All (λ p. HasMode model.now p.item p.value) modes.now }
    requires seen { All (λ p. HasValue model.now p.item p.value) seen.now }
    ensures { (denied : Option Formula) →
        AreClausesOf model.now None denied problem.now →
        IfOk result (IsFirstFound (FitsAndDenies model.now modes.now seen.now denied)) }
{
    let mut space = WorldSpace::of(alloc, problem, MAX_SLOTS)?;
    see(model, problem, modes, seen, &mut space);
    let components = model.components().len();
    match first_world(alloc, problem, &mut space.search)? {
        Some(values) => Ok(Some(split(alloc, components, values.as_slice())?)),
        None => Ok(None),
    }
}

/// The first state in mode order that extends the modes and has a world in which the formula is false, with its first such
/// world in value order. None comes exactly where the formula follows from the modes.
pub fn counter(rules: &Rules, modes: &Cube, formula: &Formula) -> Result<Option<Found>, AllocError>
    requires modes { All (λ p. HasMode rules.now.model.now p.item p.value) modes.now }
    requires formula { IsTrue (is_within (length rules.now.model.now.components)
        (length rules.now.model.now.variables) formula.now) }
    ensures first { IfOk result (IsFirstFound (Counters rules.now.model.now modes.now formula.now)) }
    ensures follows { IfOk result (λ o.
        IsNone o → Follows rules.now.model.now modes.now formula.now) }
{
    let worlds = rules.worlds;
    let problem = denied_problem(rules.alloc, rules.model, &worlds.problem, formula)?;
    first_found(rules.alloc, rules.model, &problem, modes.as_slice(), &[])
}

impl Worlds {
    ghost use Rattle.consistency.specs.Worlds.{AreWorldsOf};

    /// The clauses of the model's rules. The error is out of memory.
    pub fn of(alloc: Global, model: &Model) -> Result<Worlds, AllocError>
        ensures { IfOk result (AreWorldsOf model.now) }
    {
        let clauses = clauses_of(alloc, model, None, None)?;
        let problem = Problem::of(alloc, clauses, model.components().len())?;
        Ok(Worlds { problem })
    }

    /// The first state in mode order that extends the modes and has a world that agrees with what is seen, with its
    /// first such world in value order. None comes exactly where there is none. The error is out of memory.
    pub fn find_world(
        &self,
        alloc: Global,
        model: &Model,
        modes: &Cube,
        seen: &Seen,
    ) -> Result<Option<Found>, AllocError>
        requires of { AreWorldsOf model.now self.now }
        requires modes { All (λ p. HasMode model.now p.item p.value) modes.now }
        requires seen { All (λ p. HasValue model.now p.item p.value) seen.now.pairs }
        ensures { IfOk result (IsFirstFound (FitsSeen model.now modes.now seen.now.pairs)) }
    {
        first_found(
            alloc,
            model,
            &self.problem,
            modes.as_slice(),
            seen.pairs.as_slice(),
        )
    }
}
