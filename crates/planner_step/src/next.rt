//! The answer for a goal.

ghost use Rattle.std.specs.Prelude.{◌≡◌, ◌↔◌, ◌+◌, ◌*◌, ◌≤◌, ℕ, List, false, length, Some};
ghost use Rattle.cca_base.specs.Prelude.{is_unreachable, AreReached, Extends, IsFirstUnreached, Promising};
ghost use Rattle.cca_base.specs.declared.cube.Pair.{Pair};
ghost use Rattle.reach_laws.specs.Plans.{IsAnswer};
ghost use Rattle.reversibility.specs.ClassParts.{CoversState};
ghost use Rattle.planner_step.specs.declared.answer.Answer.TheVariants.{Achieved, Unreachable};
ghost use Rattle.planner_step.specs.Planning.{cells_of, member_of, reply_of, IsGoal};
ghost use Rattle.planner_step.specs.Served.{IsPlanTo};

use crate::answer::Answer;
use crate::missing::first_missing;
use crate::reached::first_unreached;
use crate::toward::command_toward;
use cca_base::{Goal, Pair, State, Steps};
use policy_tables::Tables;
use std::sync::ledger::Ledger;

/// The answer for a goal of these pairs, by the rule of the cells. It takes no memory, and at most twice as many steps as there are
/// components, each of which is counted.
pub fn answer_for<L: Ledger>(
    tables: &Tables,
    state: &State,
    pairs: &[Pair],
    steps: &mut Steps<L>,
) -> Answer
    requires covers { CoversState tables.now.classes state.now.modes }
    requires goal { IsGoal tables.now.classes.compiled pairs.now }
    ensures rule { IsAnswer (member_of tables.now) (cells_of tables.now) state.now.modes pairs.now
        (reply_of result) }
    ensures promises { Promising tables.now.classes.compiled state.now.modes pairs.now
        (reply_of result) }
    ensures counts { steps.old ≤ steps.new }
    ensures steps { steps.new ≤ steps.old + 2 * length
        tables.now.classes.compiled.model.components }
{
    let _classes = tables.classes();
    if let Some(pair) = first_unreached(tables, state, pairs, steps) {
        return Answer::Unreachable(pair.item, pair.value);
    }
    match first_missing(state, pairs) {
        None => Answer::Achieved,
        Some(pair) => {
            let command = command_toward(tables, state, pair, steps);
            Answer::Send(command)
        }
    }
}

/// The answer for the goal, by the tables alone. It takes no memory, and at most twice as many steps as there are
/// components, each of which is counted.
pub fn next_command<L: Ledger>(
    tables: &Tables,
    state: &State,
    goal: &Goal,
    steps: &mut Steps<L>,
) -> Answer
    requires covers { CoversState tables.now.classes state.now.modes }
    requires goal { IsGoal tables.now.classes.compiled goal.now.pairs }
    ensures achieved { (result ≡ Achieved) ↔ Extends state.now.modes goal.now.pairs }
    ensures unreachable { (p : Pair) → (result ≡ Unreachable p.item p.value)
        ↔ IsFirstUnreached tables.now.classes.compiled.model state.now.modes goal.now.pairs p }
    ensures reached { (is_unreachable (Some (reply_of result)) ≡ false)
        ↔ AreReached tables.now.classes.compiled.model state.now.modes goal.now.pairs }
    ensures promises { Promising tables.now.classes.compiled state.now.modes goal.now.pairs
        (reply_of result) }
    ensures plan { AreReached tables.now.classes.compiled.model state.now.modes goal.now.pairs
        → (ks last : List ℕ) × IsPlanTo tables.now state.now.modes goal.now.pairs ks last }
    ensures rule { IsAnswer (member_of tables.now) (cells_of tables.now) state.now.modes
        goal.now.pairs (reply_of result) }
    ensures counts { steps.old ≤ steps.new }
    ensures steps { steps.new ≤ steps.old + 2 * length
        tables.now.classes.compiled.model.components }
{
    let _classes = tables.classes();
    answer_for(tables, state, goal.pairs.as_slice(), steps)
}
