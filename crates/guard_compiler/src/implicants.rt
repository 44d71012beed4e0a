//! The prime implicants of a move's guard, over states that have a world.

ghost use Rattle.std.specs.Prelude.{◌<◌, ◌≤◌, ◌↔◌, IfErr, IfOk, IsErr, IsTrue, length};
ghost use Rattle.cca_base.specs.Prelude.{is_within, AreWays, HasWorlds};
ghost use Rattle.cca_base.specs.declared.limits.TheConstants.{MAX_WAYS};
ghost use Rattle.guard_compiler.specs.Rules.{AreRulesOf};
ghost use Rattle.guard_compiler.specs.Compilable.{AreWaysAt, IsCompilable};
ghost use Rattle.guard_compiler.specs.Ways.{AtMove, HasManyWays, IsStop};
ghost use Rattle.prime_implicants.specs.Primes.{IfEvery, IsMore};

use crate::conjunctions::{conjunction_implicants, names_variable};
use crate::guards::guard_implicants;
use crate::rules::{RuleClause, rules_of};
use cca_base::codes::WAYS;
use cca_base::{Cube, Detail, Formula, List, Model, Move, Refusal, Stop};
use prime_implicants::Primes;
use std::alloc::{AllocError, Global};

/// All prime implicants of the move, in cube order; or `More`, exactly where there are more than `MAX_WAYS`. A conjunction that
/// names a variable is taken part by part, if that stays small. The error is out of memory.
fn implicants_of(
    alloc: Global,
    model: &Model,
    rules: &List<RuleClause>,
    the_move: &Move,
) -> Result<Primes, AllocError>
    requires from { IsCompilable model.now rules.now the_move.now }
    requires guard { IsTrue (is_within (length model.now.components) (length model.now.variables)
        the_move.now.guard) }
    ensures every { IfOk result (λ r. IfEvery r (AreWays model.now the_move.now)) }
    ensures few { IfOk result (λ r. IfEvery r (λ cubes. length cubes ≤ MAX_WAYS)) }
    ensures more { IfOk result (λ r. IsMore r ↔ HasManyWays model.now the_move.now) }
{
    let guard = &the_move.guard;
    if let Formula::All(parts) = guard {
        if names_variable(guard) {
            if let Some(cubes) = conjunction_implicants(
                alloc,
                model,
                rules,
                the_move,
                parts.as_slice(),
            )? {
                return Ok(Primes::Every(cubes));
            }
        }
    }
    let found = guard_implicants(alloc, model, rules, the_move, guard)?;
    Ok(found)
}

/// Exactly the prime implicants of a move, in cube order, by the clauses of the model's rules, for a model whose states all
/// have a world. The move is refused where it has more than `MAX_WAYS`; the other error is out of memory.
pub fn ways_of(
    alloc: Global,
    model: &Model,
    rules: &List<RuleClause>,
    move_number: u16,
) -> Result<List<Cube>, Stop>
    requires worlds { HasWorlds model.now }
    requires rules { AreRulesOf model.now rules.now }
    requires number { move_number < length model.now.moves }
    ensures ways { IfOk result (AreWaysAt model.now move_number) }
    ensures refused { IfErr result (IsStop model.now move_number) }
    ensures many { AtMove model.now move_number (λ move.
        HasManyWays model.now move → IsErr result) }
{
    let the_move = model.moves().get(move_number as usize);
    match implicants_of(alloc, model, rules, the_move)? {
        Primes::Every(cubes) => Ok(cubes),
        Primes::More => Err(Stop::Refused(Refusal {
            code: WAYS,
            detail: Detail::OfMove(move_number),
        })),
    }
}

/// Exactly the prime implicants of a move, in cube order, for a model whose states all have a world. The move is refused
/// where it has more than `MAX_WAYS`; the other error is out of memory.
pub fn ways(alloc: Global, model: &Model, move_number: u16) -> Result<List<Cube>, Stop>
    requires worlds { HasWorlds model.now }
    requires number { move_number < length model.now.moves }
    ensures ways { IfOk result (AreWaysAt model.now move_number) }
    ensures refused { IfErr result (IsStop model.now move_number) }
    ensures many { AtMove model.now move_number (λ move.
        HasManyWays model.now move → IsErr result) }
{
    let rules = rules_of(alloc, model)?;
    ways_of(alloc, model, &rules, move_number)
}
