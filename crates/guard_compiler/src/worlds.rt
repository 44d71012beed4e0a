//! Which states have a world, as clauses over the components.

ghost use Rattle.std.specs.Prelude.{◌≡◌, IfOk, filter};
ghost use Rattle.guard_compiler.specs.Rules.{AreRulesOf, clauses_in, is_unowned};
ghost use Rattle.guard_compiler.specs.Worlds.{AreStateClauses};

use crate::rules::RuleClause;
use cca_base::{List, Model};
use clause_form::{Clause, Clauses, sizes_of};
use elimination::project;
use std::alloc::{AllocError, Global};

/// The clauses without an owner.
fn unowned_of(alloc: Global, rules: &[RuleClause]) -> Result<List<Clause>, AllocError>
    ensures { IfOk result (λ r. r ≡ clauses_in (filter is_unowned rules.now)) }
{
    let mut clauses = List::new(alloc);
    for rule in rules {
        if rule.owner.is_none() {
            clauses.push(rule.clause.copy(alloc)?)?;
        }
    }
    Ok(clauses)
}

/// Clauses over the model's components that are all true of a state exactly where the state has a world. `rules` is what
/// `rules_of` answers for the model. The error is out of memory.
pub fn worlds_of(
    alloc: Global,
    model: &Model,
    rules: &List<RuleClause>,
) -> Result<Clauses, AllocError>
    requires { AreRulesOf model.now rules.now }
    ensures { IfOk result (AreStateClauses model.now) }
{
    let unowned = Clauses {
        sizes: sizes_of(alloc, model)?,
        clauses: unowned_of(alloc, rules.as_slice())?,
    };
    let states = project(alloc, &unowned, model.components().len() as u16)?;
    Ok(states)
}
