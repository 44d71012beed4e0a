//! The answer of a tick.

ghost use Rattle.std.specs.Prelude.{◌≡◌, ◌≢◌, ◌<◌, IfSome};
ghost use Rattle.std.specs.Option.{option_map};
ghost use Rattle.cca_base.specs.Accepted.{CompiledModel};
ghost use Rattle.cca_base.specs.Prelude.{IsReply, IsState, Promising};
ghost use Rattle.cca_base.specs.declared.events.Reply.TheVariants.{Idle};
ghost use Rattle.planner_step.specs.Planning.{reply_of, IsGoal};
ghost use Rattle.reversibility.specs.ClassParts.{CoversState};
ghost use Rattle.trace_laws.specs.Fits.{IsKeptGoal};
ghost use Rattle.trace_laws.specs.Tables.{TakesFor};
ghost use Rattle.executive_loop.specs.Covering.{base_of, covers, tables_in, AreCovering, AreTablesOf};

use crate::policy::Policy;
use cca_base::{Pair, Reply, State, Steps};
use planner_step::{Answer, answer_for};
use policy_tables::Tables;
use std::marker::Brand;
use std::sync::ledger::{Blank, Ledger};

/// The answer as a reply.
fn reply_of(answer: Answer) -> Reply
    ensures { result ≡ reply_of answer }
{
    match answer {
        Answer::Send(command) => Reply::Send(command),
        Answer::Achieved => Reply::Achieved,
        Answer::Unreachable(component, mode) => Reply::Unreachable(component, mode),
    }
}

/// The reply to a goal by the tables. Nobody asks for the count of steps.
fn reply_by<L: Ledger>(tables: &Tables, state: &State, goal: &[Pair], blank: Blank) -> Reply
    requires name { blank.name ≡ L.name }
    requires parts { blank.parts ≡ L.parts }
    requires some { 0 < blank.parts }
    requires covers { CoversState tables.now.classes state.now.modes }
    requires goal { IsGoal tables.now.classes.compiled goal.now }
    ensures { Promising tables.now.classes.compiled state.now.modes goal.now result }
{
    let mut steps = Steps::<L>::of(blank);
    reply_of(answer_for(tables, state, goal, &mut steps))
}

/// The reply in a state: idle without a goal, and else by tables that cover the state.
pub(crate) fn reply_in(policy: &mut Policy, state: &State, goal: Option<&[Pair]>) -> Reply
    requires state { IsState policy.old.tables.classes.compiled.model state.now.modes }
    requires goal { IfSome goal (λ g. IsKeptGoal policy.old.tables.classes.compiled g.now) }
    ensures reply { IsReply (Promising policy.old.tables.classes.compiled) state.now.modes
        (option_map (λ g. g.now) goal.entry) result }
    ensures takes { TakesFor base_of covers (option_map (λ g. g.now) goal.entry) (tables_in policy.old)
        state.now.modes (tables_in policy.new) }
    ensures covers { result ≢ Idle → AreCovering (tables_in policy.new) state.now.modes }
    ensures of { (b : CompiledModel) → AreTablesOf b policy.old.tables → AreTablesOf b policy.new.tables }
{
    let Some(goal) = goal else {
        return Reply::Idle;
    };
    policy.take(state);
    reply_by::<Brand>(&policy.tables, state, goal, Blank::new(1))
}
