//! Whether what is shown fits the goal, and whether the checker is holding.

ghost use Rattle.std.specs.Prelude.{◌≡◌, ◌↔◌, IsTrue, Contains};
ghost use Rattle.std.specs.Option.{option_map};
ghost use Rattle.plan_checker.specs.Reasons.{FitsGoal, AnswersGoal};

use cca_base::{Goal, Pair, Reply, Shown, State};
use consistency::stand_in;
use trace_laws::Standing;

/// Whether the pair is one of these.
fn is_among(pairs: &[Pair], pair: Pair) -> bool
    ensures { IsTrue result ↔ Contains pairs.now pair }
{
    for other in pairs {
        if *other == pair {
            return true;
        }
    }
    false
}

/// Whether the reply fits the goal in force.
fn fits_goal(state: &State, goal: &Option<Goal>, reply: Reply) -> bool
    ensures { IsTrue result ↔ FitsGoal state.now.modes (option_map (λ g. g.pairs) goal.now) reply }
{
    let modes = state.modes.as_slice();
    let Some(goal) = goal else {
        return reply == Reply::Idle;
    };
    let pairs = goal.pairs.as_slice();
    match reply {
        Reply::Idle => false,
        Reply::Achieved => stand_in(pairs, modes),
        Reply::Send(_) => !stand_in(pairs, modes),
        Reply::Unreachable(item, value) => {
            let pair = Pair { item, value };
            is_among(pairs, pair) && !stand_in(&[pair], modes)
        }
    }
}

/// Whether holding is shown exactly while holding, and a reply fits the goal.
pub(crate) fn answers_goal(standing: &Standing, shown: &Shown) -> bool
    ensures { IsTrue result ↔ AnswersGoal standing.now shown.now }
{
    match shown {
        Shown::Estimated { state, reply, .. } => {
            !standing.holding && fits_goal(state, &standing.goal, *reply)
        }
        Shown::Unexplained => !standing.holding,
        Shown::Holding => standing.holding,
    }
}
