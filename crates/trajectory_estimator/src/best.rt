//! The best trajectory of a window, as the least solution of its question.

ghost use Rattle.std.specs.Prelude.{◌≡◌, ◌≤◌, All, IfOk, length, map};
ghost use Rattle.cca_base.specs.Prelude.{IsState};
ghost use Rattle.group_search.specs.Floors.{every};
ghost use Rattle.group_search.specs.Questions.{cost_in};
ghost use Rattle.trajectory_estimator.specs.Asked.{AreValues, IsBestOf, entry_of, modes_of};
ghost use Rattle.trajectory_estimator.specs.Spaces.{IsWindowSpace};
ghost use Rattle.trajectory_estimator.specs.Windows.{IsWindow, states_of};
ghost use Rattle.trajectory_estimator.specs.declared.record.TheConstants.{MAX_WINDOW};

use crate::changes::Changes;
use crate::paths::WindowPaths;
use crate::places::{components_of, first_masks};
use crate::query::Query;
use crate::record::Record;
use crate::space::WindowSpace;
use crate::still::still_components;
use crate::trajectory::Trajectory;
use cca_base::{Compiled, List, State, numbers_below};
use consistency::Worlds;
use group_search::{Chosen, group_cost, least_solution};
use std::alloc::{AllocError, Global};

/// These modes, as a state. The error is out of memory.
fn state_of(alloc: Global, modes: &[u8]) -> Result<State, AllocError>
    ensures { IfOk result (λ s. s.modes ≡ modes.now) }
{
    Ok(State {
        modes: List::of(Vec::from_slice(alloc, modes)?),
    })
}

/// The states of a solution, with what they cost. The error is out of memory.
fn trajectory_of(query: &Query, chosen: &Chosen) -> Result<Trajectory, AllocError>
    requires { IsWindow query.now chosen.now.values chosen.now.costs }
    ensures states { IfOk result (λ t. modes_of t.states ≡ states_of query.now chosen.now.values) }
    ensures cost { IfOk result (λ t. t.cost ≡ cost_in (length query.now.model.components) every chosen.now.costs) }
{
    let alloc = query.alloc();
    let count = query.model().components().len();
    let mut states = List::new(alloc);
    for at in 0..query.records().len() {
        let modes = &chosen.values.as_slice()[at * count..at * count + count];
        states.push(state_of(alloc, modes)?)?;
    }
    let components = numbers_below(alloc, count)?;
    let cost = group_cost(components.as_slice(), None, chosen.costs.as_slice());
    Ok(Trajectory { states, cost })
}

/// The same as `best_trajectory`, with what is made once for many windows.
pub(crate) fn best_of(
    query: &Query,
    space: &mut WindowSpace,
) -> Result<Option<Trajectory>, AllocError>
    requires space { IsWindowSpace query.now.worlds (length query.now.model.components) space.old }
    ensures best { IfOk result (IsBestOf query.now.model query.now.anchor query.now.records) }
    ensures space { IsWindowSpace query.now.worlds (length query.now.model.components) space.new }
{
    let alloc = query.alloc();
    let components = components_of(query)?;
    let still = still_components(query)?;
    let paths = WindowPaths {
        query,
        components: components.as_slice(),
        still: still.as_slice(),
    };
    let masks = first_masks(query)?;
    let modes = query.records().len() * query.model().components().len();
    match least_solution(alloc, &paths, space, masks, modes)? {
        Some(chosen) => Ok(Some(trajectory_of(query, &chosen)?)),
        None => Ok(None),
    }
}

/// The trajectory from the anchor over the records that costs least, the first in mode order from the oldest state on among equals.
/// None comes exactly where there is none. The error is out of memory.
pub fn best_trajectory(
    alloc: Global,
    compiled: &Compiled,
    anchor: &State,
    records: &List<Record>,
) -> Result<Option<Trajectory>, AllocError>
    requires anchor { IsState compiled.now.model anchor.now.modes }
    requires few { length records.now ≤ MAX_WINDOW }
    requires values { All (AreValues compiled.now.model) (map entry_of records.now) }
    ensures { IfOk result (IsBestOf compiled.now.model anchor.now.modes (map entry_of records.now)) }
{
    let worlds = Worlds::of(alloc, compiled.model())?;
    let mut space = WindowSpace::of(alloc, compiled.model(), &worlds)?;
    let changes = Changes::of(alloc, compiled.model())?;
    let query = Query::new(
        alloc,
        compiled,
        &worlds,
        &changes,
        anchor,
        records.as_slice(),
    );
    best_of(&query, &mut space)
}
