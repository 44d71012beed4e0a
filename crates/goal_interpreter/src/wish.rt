//! The lightest settled state that holds a wish.

ghost use Rattle.std.specs.Prelude.{length, IfOk, IsTrue};
ghost use Rattle.cca_base.specs.Prelude.{is_within, AreReached, IsState};
ghost use Rattle.guard_compiler.specs.Rules.{AreRulesOf};
ghost use Rattle.reversibility.specs.ClassParts.{CoversState};
ghost use Rattle.planner_step.specs.Planning.{IsGoal};
ghost use Rattle.wish_laws.specs.Settled.{PlansEndIn};
ghost use Rattle.goal_interpreter.specs.Targets.{IfFound, IsTargetFor};
ghost use Rattle.goal_interpreter.specs.Weights.{AreWeights};

use crate::choose::choose;
use crate::goal::goal_of;
use crate::target::{MAX_IMPLICANTS, Target};
use crate::weights::Weights;
use cca_base::{Formula, List, State};
use guard_compiler::{RuleClause, rules_of, wish_implicants};
use policy_tables::Tables;
use prime_implicants::Primes;
use std::alloc::{AllocError, Global};

/// The lightest settled state from the state that holds the wish, the first in mode order among equals, with its goal, by
/// the clauses of the model's rules, which are made once for many wishes. Or that there is none; or that the wish has more
/// than `MAX_IMPLICANTS` prime implicants, whether or not there is one. The error is out of memory.
pub fn interpret_by(
    alloc: Global,
    tables: &Tables,
    rules: &List<RuleClause>,
    state: &State,
    formula: &Formula,
    weights: &Weights,
) -> Result<Target, AllocError>
    requires rules { AreRulesOf tables.now.classes.compiled.model rules.now }
    requires covers { CoversState tables.now.classes state.now.modes }
    requires formula { IsTrue (is_within (length tables.now.classes.compiled.model.components)
        (length tables.now.classes.compiled.model.variables) formula.now) }
    requires weights { AreWeights tables.now.classes.compiled.model weights.now.rows }
    ensures target { IfOk result (IsTargetFor tables.now.classes.compiled weights.now.rows
        state.now.modes formula.now) }
    ensures state { IfOk result (λ r. IfFound r (λ t goal.
        IsState tables.now.classes.compiled.model t)) }
    ensures goal { IfOk result (λ r. IfFound r (λ t goal.
        IsGoal tables.now.classes.compiled goal)) }
    ensures reached { IfOk result (λ r. IfFound r (λ t goal.
        AreReached tables.now.classes.compiled.model state.now.modes goal)) }
    ensures plans { IfOk result (λ r. IfFound r (λ t goal.
        PlansEndIn tables.now.classes.compiled state.now.modes goal t)) }
{
    let classes = tables.classes();
    let compiled = classes.compiled();
    let most = MAX_IMPLICANTS as u32;
    let Primes::Every(cubes) = wish_implicants(alloc, compiled.model(), rules, formula, most)?
    else {
        return Ok(Target::Many);
    };
    match choose(alloc, classes, state, weights, &cubes)? {
        None => Ok(Target::Nowhere),
        Some(best) => {
            let goal = goal_of(alloc, compiled, &best.state)?;
            Ok(Target::Found {
                state: best.state,
                weight: best.weight,
                goal,
            })
        }
    }
}

/// The same for one wish alone.
pub fn interpret(
    alloc: Global,
    tables: &Tables,
    state: &State,
    formula: &Formula,
    weights: &Weights,
) -> Result<Target, AllocError>
    requires covers { CoversState tables.now.classes state.now.modes }
    requires formula { IsTrue (is_within (length tables.now.classes.compiled.model.components)
        (length tables.now.classes.compiled.model.variables) formula.now) }
    requires weights { AreWeights tables.now.classes.compiled.model weights.now.rows }
    ensures target { IfOk result (IsTargetFor tables.now.classes.compiled weights.now.rows
        state.now.modes formula.now) }
    ensures state { IfOk result (λ r. IfFound r (λ t goal.
        IsState tables.now.classes.compiled.model t)) }
    ensures goal { IfOk result (λ r. IfFound r (λ t goal.
        IsGoal tables.now.classes.compiled goal)) }
    ensures reached { IfOk result (λ r. IfFound r (λ t goal.
        AreReached tables.now.classes.compiled.model state.now.modes goal)) }
    ensures plans { IfOk result (λ r. IfFound r (λ t goal.
        PlansEndIn tables.now.classes.compiled state.now.modes goal t)) }
{
    let rules = rules_of(alloc, tables.classes().compiled().model())?;
    interpret_by(alloc, tables, &rules, state, formula, weights)
}
