//! The prime implicants of a guard that is a conjunction, from those of its parts.

ghost use Rattle.std.specs.Prelude.{◌≤◌, All, IfOk, IfSome, IsTrue, length};
ghost use Rattle.cca_base.specs.Prelude.{is_within, AreWays, IsRising};
ghost use Rattle.cca_base.specs.declared.limits.TheConstants.{MAX_WAYS};
ghost use Rattle.guard_compiler.specs.Conjunctions.{AddsPart, all_of, with_guard};
ghost use Rattle.guard_compiler.specs.Compilable.{IsCompilable};

use crate::guards::guard_implicants;
use crate::rules::RuleClause;
use crate::unions::least_unions;
use cca_base::{Cube, Formula, List, MAX_WAYS, Model, Move, Subject};
use prime_implicants::Primes;
use std::alloc::{AllocError, Global};

/// The prime implicants that the move has with all parts as its guard, in cube order. None, of which nothing is claimed,
/// where a part, or the parts up to one, have more than `MAX_WAYS`. The error is out of memory.
pub(crate) fn conjunction_implicants(
    alloc: Global,
    model: &Model,
    rules: &List<RuleClause>,
    the_move: &Move,
    parts: &[Formula],
) -> Result<Option<List<Cube>>, AllocError>
    requires from { IsCompilable model.now rules.now the_move.now }
    requires parts { All (λ part.
        IsTrue (is_within (length model.now.components) (length model.now.variables) part))
        parts.now }
    ensures ways { IfOk result (λ r.
        IfSome r (AreWays model.now (with_guard the_move.now (all_of parts.now)))) }
    ensures few { IfOk result (λ r. IfSome r (λ cubes. length cubes ≤ MAX_WAYS)) }
{
    let mut cubes = List::new(alloc);
    cubes.push(Cube::new(alloc))?;
    for part in parts {
        match with_part(alloc, model, rules, the_move, cubes.as_slice(), part)? {
            Some(more) => cubes = more,
            None => return Ok(None),
        }
    }
    Ok(Some(cubes))
}

// From the prime implicants with some parts as the guard those with one more.
fn with_part(
    alloc: Global,
    model: &Model,
    rules: &List<RuleClause>,
    the_move: &Move,
    cubes: &[Cube],
    part: &Formula,
) -> Result<Option<List<Cube>>, AllocError>
    requires from { IsCompilable model.now rules.now the_move.now }
    requires part { IsTrue (is_within (length model.now.components) (length model.now.variables)
        part.now) }
    requires cubes { All IsRising cubes.now }
    ensures ways { IfOk result (λ r.
        IfSome r (AddsPart model.now the_move.now part.now cubes.now)) }
    ensures few { IfOk result (λ r. IfSome r (λ all. length all ≤ MAX_WAYS)) }
{
    match guard_implicants(alloc, model, rules, the_move, part)? {
        Primes::Every(others) => {
            let all = least_unions(alloc, cubes, others.as_slice(), MAX_WAYS)?;
            Ok(all)
        }
        Primes::More => Ok(None),
    }
}

/// Whether the formula names a variable.
pub(crate) fn names_variable(formula: &Formula) -> bool {
    match formula {
        Formula::True | Formula::False => false,
        Formula::Among { subject, .. } => matches!(subject, Subject::Variable(_)),
        Formula::Not(part) => names_variable(part.get()),
        Formula::All(parts) | Formula::Any(parts) => {
            for part in parts.as_slice() {
                if names_variable(part) {
                    return true;
                }
            }
            false
        }
        Formula::Implies(a, b) | Formula::Iff(a, b) => names_variable(a.get())
            || names_variable(b.get()),
    }
}
