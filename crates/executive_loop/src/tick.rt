//! One tick.

ghost use Rattle.std.specs.Prelude.{◌≡◌, ◌<◌, ◌+◌, ◌^◌};
ghost use Rattle.cca_base.specs.Prelude.{IsState, Promising, TickShows};
ghost use Rattle.trace_laws.specs.Fits.{Fits};
ghost use Rattle.trace_laws.specs.Tables.{TablesShown};
ghost use Rattle.executive_loop.specs.Answered.{IsAnswered};
ghost use Rattle.executive_loop.specs.Borrowed.{shown_with};
ghost use Rattle.executive_loop.specs.Covering.{base_of, covers, tables_in, AreCoveringShown};
ghost use Rattle.executive_loop.specs.Parts.{IsWorkspace, SeenAt};

use crate::answer::reply_in;
use crate::kept_standing::KeptStanding;
use crate::made::{Made, Outcome};
use crate::observed::observe;
use crate::workspace::Workspace;
use cca_base::Compiled;
use mode_estimator::estimate_in;
use std::alloc::Global;
use std::rc::Rc;
use successors::obey;
use trace_laws::command_of;

/// Answers the estimate that was found, which becomes the last one.
fn answer(
    compiled: &Rc<Compiled>,
    standing: &mut KeptStanding,
    workspace: &mut Workspace,
    cost: u64,
) -> Outcome
    requires fits { Fits compiled.now.value standing.old }
    requires workspace { IsWorkspace compiled.now.value workspace.old }
    requires state { IsState compiled.now.value.model workspace.old.space.found.modes }
    requires room { standing.old.ticks + 1 < 2 ^ 64 }
    ensures answered { IsAnswered compiled.now.value standing.old cost workspace.old.space.found
        (shown_with standing.new.estimate result) standing.new }
    ensures takes { TablesShown base_of covers standing.old.goal (tables_in workspace.old.policy)
        (shown_with standing.new.estimate result) (tables_in workspace.new.policy) }
    ensures covers { AreCoveringShown (tables_in workspace.new.policy) standing.new.estimate
        (shown_with standing.new.estimate result) }
    ensures workspace { IsWorkspace compiled.now.value workspace.new }
    ensures seen { workspace.new.seen ≡ workspace.old.seen }
{
    let tick = standing.ticks + 1;
    workspace.space.swap_found(&mut standing.estimate);
    let reply = reply_in(&mut workspace.policy, &standing.estimate, standing.goal());
    let command = command_of(reply);
    obey(compiled, &mut standing.plant, command);
    standing.count(command, tick);
    Outcome::Estimated { cost, reply }
}

/// Makes a tick. It takes no memory.
pub(crate) fn make_tick(
    alloc: Global,
    compiled: &Rc<Compiled>,
    standing: &mut KeptStanding,
    workspace: &mut Workspace,
) -> Made
    requires fits { Fits compiled.now.value standing.old }
    requires workspace { IsWorkspace compiled.now.value workspace.old }
    requires room { standing.old.ticks + 1 < 2 ^ 64 }
    ensures number { result.tick ≡ standing.old.ticks + 1 }
    ensures shows { TickShows compiled.now.value.model (Promising compiled.now.value) standing.old
        (shown_with standing.new.estimate result.outcome) standing.new }
    ensures takes { TablesShown base_of covers standing.old.goal (tables_in workspace.old.policy)
        (shown_with standing.new.estimate result.outcome) (tables_in workspace.new.policy) }
    ensures covers { AreCoveringShown (tables_in workspace.new.policy) standing.new.estimate
        (shown_with standing.new.estimate result.outcome) }
    ensures workspace { IsWorkspace compiled.now.value workspace.new }
    ensures seen { SeenAt compiled.now.value.model standing.old
        (shown_with standing.new.estimate result.outcome) workspace.new.seen.items }
{
    let tick = standing.ticks + 1;
    if standing.holding {
        standing.count(standing.command, tick);
        workspace.seen.clear();
        return Made {
            tick,
            outcome: Outcome::Holding,
        };
    }
    observe(compiled, standing, workspace);
    let found = estimate_in(
        alloc,
        compiled,
        &workspace.worlds,
        &standing.estimate,
        standing.command,
        workspace.seen.as_slice(),
        &mut workspace.space,
    );
    let outcome = match found {
        Some(cost) => answer(compiled, standing, workspace, cost),
        None => {
            standing.hold(tick);
            Outcome::Unexplained
        }
    };
    Made { tick, outcome }
}
