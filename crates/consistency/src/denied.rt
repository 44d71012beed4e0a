//! A formula's denial, for questions whether the formula follows, and the clauses of a model's rules beside it.

ghost use Rattle.std.specs.Prelude.{◌≡◌, ◌++◌, length, IfOk, OnOk, IsTrue, None, Some};
ghost use Rattle.cca_base.specs.Prelude.{is_within};
ghost use Rattle.clause_form.specs.Formulas.{AreClausesOf, AreDenying};

use cca_base::{Formula, List, Model};
use clause_form::{Clause, Clauses, denied_clauses};
use std::alloc::{AllocError, Global};
use world_search::{Beside, Problem};

/// A formula's denial: clauses that are all true exactly where the formula is false, made ready once for questions
/// whether it follows. A contract sees the clauses.
#[derive(Drop)]
pub struct Denied {
    pub(crate) beside: Beside,
}

impl std::marker::Model for Denied {
    ghost use Rattle.clause_form.specs.declared.clause.Clauses.{Clauses};

    ghost Value = { Clauses };

    ghost view = { λ d. d.beside };
}

impl Denied {
    /// The formula's denial, made ready. The error is out of memory.
    pub fn of(alloc: Global, model: &Model, formula: &Formula) -> Result<Denied, AllocError>
        requires { IsTrue (is_within (length model.now.components) (length model.now.variables)
            formula.now) }
        ensures { IfOk result (AreDenying model.now formula.now) }
    {
        let clauses = denied_clauses(alloc, model, formula)?;
        let beside = Beside::of(alloc, clauses)?;
        Ok(Denied { beside })
    }
}

/// Puts a copy of the rules' clauses behind the others.
fn add_copies(alloc: Global, rules: &[Clause], clauses: &mut List<Clause>) -> Result<(), AllocError>
    ensures { OnOk result (clauses.new ≡ clauses.old ++ rules.now) }
{
    for clause in rules {
        let literals = clause.literals.copy(alloc)?;
        clauses.push(Clause { literals })?;
    }
    Ok(())
}

/// The clauses of the rules, beside those that say that the formula is false.
pub fn denied_problem(
    alloc: Global,
    model: &Model,
    rules: &Problem,
    formula: &Formula,
) -> Result<Problem, AllocError>
    requires rules { AreClausesOf model.now None None rules.now }
    requires formula { IsTrue (is_within (length model.now.components) (length model.now.variables)
        formula.now) }
    ensures { IfOk result (λ p. AreClausesOf model.now None (Some formula.now) p) }
{
    let Clauses { sizes, mut clauses } = denied_clauses(alloc, model, formula)?;
    add_copies(alloc, rules.clauses().clauses.as_slice(), &mut clauses)?;
    Problem::of(alloc, Clauses { sizes, clauses }, model.components().len())
}
