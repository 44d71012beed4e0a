//! From a pair that is wanted, cell by cell, to a command whose guard stands: what a cell needs first is wanted next.

ghost use Rattle.std.specs.Prelude.{◌≡◌, ◌+◌, ℕ};
ghost use Rattle.reach_laws.specs.Cells.{Finds};
ghost use Rattle.reversibility.specs.ClassParts.{CoversState};
ghost use Rattle.planner_step.specs.Planning.{cells_of};
ghost use Rattle.planner_step.specs.Toward.{IsWantedPair, CellSays};

use crate::missing::first_missing;
use cca_base::{Pair, State, Steps};
use policy_tables::{CellRef, Tables};
use std::sync::ledger::Ledger;

/// What one cell leads to.
#[derive(Clone, Copy, Debug, PartialEq, Eq)]
enum Next {
    /// Its command.
    Command(u16),
    /// A pair that has to stand before.
    First(Pair),
}

/// What the cell of the pair's component leads to. It is one step.
fn look<L: Ledger>(tables: &Tables, state: &State, pair: Pair, steps: &mut Steps<L>) -> Next
    requires covers { CoversState tables.now.classes state.now.modes }
    requires wanted { IsWantedPair tables.now state.now.modes pair }
    ensures value { CellSays tables.now state.now.modes pair result }
    ensures steps { steps.new ≡ steps.old + 1 }
{
    let _classes = tables.classes();
    let mode = *state.modes.get(pair.item as usize);
    let CellRef::Step { command, cube, .. } = tables.look_up(pair.item, mode, pair.value, steps)
    else {
        unreachable!()
    };
    match first_missing(state, cube.as_slice()) {
        None => Next::Command(command),
        Some(next) => Next::First(next),
    }
}

/// The command toward the pair. It takes a step for each cell.
pub(crate) fn command_toward<L: Ledger>(
    tables: &Tables,
    state: &State,
    pair: Pair,
    steps: &mut Steps<L>,
) -> u16
    requires covers { CoversState tables.now.classes state.now.modes }
    requires wanted { IsWantedPair tables.now state.now.modes pair }
    ensures { (n : ℕ) × Finds (cells_of tables.now) state.now.modes pair.item pair.value result n
        × (steps.new ≡ steps.old + n) }
{
    let _classes = tables.classes();
    let mut at = pair;
    'toward: loop {
        match look(tables, state, at, steps) {
            Next::Command(command) => return command,
            Next::First(next) => at = next,
        }
    }
}
