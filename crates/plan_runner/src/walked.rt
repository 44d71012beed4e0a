//! The commands for a goal one after the other, until it stands or there are too many.

ghost use Rattle.std.specs.Prelude.{◌≡◌, ◌<◌, IfOk};
ghost use Rattle.reach_laws.specs.Classes.{AreInside};
ghost use Rattle.reversibility.specs.ClassParts.{CoversState};
ghost use Rattle.planner_step.specs.Planning.{member_of, IsGoal};
ghost use Rattle.plan_runner.specs.Walked.{IsWalked};

use crate::step::send;
use cca_base::{Goal, List, MAX_PLAN, State, Steps};
use planner_step::{Answer, next_command};
use policy_tables::Tables;
use std::alloc::{AllocError, Global};
use std::sync::ledger::{Blank, Ledger};

/// Where the commands of a plan lead.
#[derive(Debug, Drop)]
pub(crate) enum Walked {
    /// The commands, and the state after them.
    Ended { plan: List<u16>, end: State },
    /// There are too many commands.
    Endless,
}

/// The commands for the goal one after the other, until it stands. Nobody asks for the count of steps.
pub(crate) fn walk<L: Ledger>(
    alloc: Global,
    tables: &Tables,
    state: &State,
    goal: &Goal,
    blank: Blank,
) -> Result<Walked, AllocError>
    requires name { blank.name ≡ L.name }
    requires parts { blank.parts ≡ L.parts }
    requires some { 0 < blank.parts }
    requires covers { CoversState tables.now.classes state.now.modes }
    requires goal { IsGoal tables.now.classes.compiled goal.now.pairs }
    requires inside { AreInside (member_of tables.now) goal.now.pairs }
    ensures { IfOk result (IsWalked tables.now.classes.compiled goal.now.pairs state.now.modes) }
{
    let model = tables.classes().compiled().model();
    let mut steps = Steps::<L>::of(blank);
    let mut plan = List::new(alloc);
    let mut at = state.copy(alloc)?;
    'walking: loop {
        let command = match next_command(tables, &at, goal, &mut steps) {
            Answer::Send(command) => command,
            Answer::Achieved => return Ok(Walked::Ended { plan, end: at }),
            Answer::Unreachable(..) => unreachable!(),
        };
        if plan.len() == MAX_PLAN {
            return Ok(Walked::Endless);
        }
        plan.push(command)?;
        send(model, &mut at, command);
    }
}
