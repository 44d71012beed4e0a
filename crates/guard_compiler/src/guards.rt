//! The prime implicants of one formula as a move's guard: its denial, with the rules that bear on it, projected onto the components.

ghost use Rattle.std.specs.Prelude.{◌≤◌, ◌↔◌, IfOk, IsTrue, length};
ghost use Rattle.cca_base.specs.Prelude.{is_within, AreWays, HasWorlds};
ghost use Rattle.cca_base.specs.declared.limits.TheConstants.{MAX_WAYS};
ghost use Rattle.guard_compiler.specs.Asked.{AreAskedOf};
ghost use Rattle.guard_compiler.specs.Conjunctions.{with_guard};
ghost use Rattle.guard_compiler.specs.Rules.{AreRulesOf};
ghost use Rattle.guard_compiler.specs.Compilable.{IsCompilable};
ghost use Rattle.guard_compiler.specs.Ways.{HasManyWays};
ghost use Rattle.prime_implicants.specs.Primes.{IfEvery, IsMore};

use crate::fixed::with_value;
use crate::relevant::with_relevant;
use crate::rules::RuleClause;
use cca_base::{Formula, List, MAX_WAYS, Model, Move};
use clause_form::{Clauses, denied_clauses};
use elimination::project;
use prime_implicants::{Primes, primes};
use std::alloc::{AllocError, Global};

/// Clauses that can be met with the modes of a state exactly where a world of the state has the guard false.
pub(crate) fn asked_of(
    alloc: Global,
    model: &Model,
    rules: &List<RuleClause>,
    guard: &Formula,
) -> Result<Clauses, AllocError>
    requires worlds { HasWorlds model.now }
    requires rules { AreRulesOf model.now rules.now }
    requires guard { IsTrue (is_within (length model.now.components) (length model.now.variables)
        guard.now) }
    ensures { IfOk result (AreAskedOf model.now guard.now) }
{
    let denied = denied_clauses(alloc, model, guard)?;
    let components = model.components().len() as u16;
    let asked = with_relevant(alloc, components, rules.as_slice(), denied)?;
    Ok(asked)
}

/// All prime implicants that the move has with this guard, in cube order; or `More`, exactly where there are more than
/// `MAX_WAYS`. The error is out of memory.
pub(crate) fn guard_implicants(
    alloc: Global,
    model: &Model,
    rules: &List<RuleClause>,
    the_move: &Move,
    guard: &Formula,
) -> Result<Primes, AllocError>
    requires from { IsCompilable model.now rules.now the_move.now }
    requires guard { IsTrue (is_within (length model.now.components) (length model.now.variables)
        guard.now) }
    ensures every { IfOk result (λ r.
        IfEvery r (AreWays model.now (with_guard the_move.now guard.now))) }
    ensures few { IfOk result (λ r. IfEvery r (λ cubes. length cubes ≤ MAX_WAYS)) }
    ensures more { IfOk result (λ r.
        IsMore r ↔ HasManyWays model.now (with_guard the_move.now guard.now)) }
{
    let asked = asked_of(alloc, model, rules, guard)?;
    let fixed = with_value(alloc, asked, the_move.component, the_move.source)?;
    let states = project(alloc, &fixed, model.components().len() as u16)?;
    let found = primes(alloc, &states, MAX_WAYS as u32)?;
    Ok(found)
}
