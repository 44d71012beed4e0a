//! The prime implicants of a formula over all components: its denial, with the rules that bear on it, projected onto the components.

ghost use Rattle.std.specs.Prelude.{◌≤◌, ◌↔◌, IfOk, IsTrue, length};
ghost use Rattle.cca_base.specs.Prelude.{is_within, HasWorlds};
ghost use Rattle.guard_compiler.specs.Rules.{AreRulesOf};
ghost use Rattle.guard_compiler.specs.Wishes.{AreImplicants, HasManyImplicants};
ghost use Rattle.prime_implicants.specs.Primes.{IfEvery, IsMore};

use crate::conjunctions::names_variable;
use crate::guards::asked_of;
use crate::rules::RuleClause;
use crate::wish_parts::wish_by_parts;
use cca_base::{Formula, List, Model};
use elimination::project;
use prime_implicants::{Primes, primes};
use std::alloc::{AllocError, Global};

/// All prime implicants of the formula, taken as a whole.
pub(crate) fn whole_wish(
    alloc: Global,
    model: &Model,
    rules: &List<RuleClause>,
    formula: &Formula,
    most: u32,
) -> Result<Primes, AllocError>
    requires worlds { HasWorlds model.now }
    requires rules { AreRulesOf model.now rules.now }
    requires formula { IsTrue (is_within (length model.now.components) (length model.now.variables)
        formula.now) }
    ensures every { IfOk result (λ r. IfEvery r (AreImplicants model.now formula.now)) }
    ensures few { IfOk result (λ r. IfEvery r (λ cubes. length cubes ≤ most)) }
    ensures more { IfOk result (λ r. IsMore r ↔ HasManyImplicants model.now formula.now most) }
{
    let asked = asked_of(alloc, model, rules, formula)?;
    let states = project(alloc, &asked, model.components().len() as u16)?;
    let found = primes(alloc, &states, most)?;
    Ok(found)
}

/// All prime implicants of the formula, in cube order, by the clauses of the model's rules, for a model whose states all have
/// a world; or `More`, exactly where there are more than `most`. A conjunction that names a variable is taken part by part, if
/// that stays small. The error is out of memory.
pub fn wish_implicants(
    alloc: Global,
    model: &Model,
    rules: &List<RuleClause>,
    formula: &Formula,
    most: u32,
) -> Result<Primes, AllocError>
    requires worlds { HasWorlds model.now }
    requires rules { AreRulesOf model.now rules.now }
    requires formula { IsTrue (is_within (length model.now.components) (length model.now.variables)
        formula.now) }
    ensures every { IfOk result (λ r. IfEvery r (AreImplicants model.now formula.now)) }
    ensures few { IfOk result (λ r. IfEvery r (λ cubes. length cubes ≤ most)) }
    ensures more { IfOk result (λ r. IsMore r ↔ HasManyImplicants model.now formula.now most) }
{
    if let Formula::All(parts) = formula {
        if names_variable(formula) {
            if let Some(cubes) = wish_by_parts(alloc, model, rules, parts.as_slice(), most)? {
                return Ok(Primes::Every(cubes));
            }
        }
    }
    let found = whole_wish(alloc, model, rules, formula, most)?;
    Ok(found)
}
