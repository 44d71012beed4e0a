//! The goal of a way back: where each component stood, or what it is mended to.

ghost use Rattle.std.specs.Prelude.{◌<◌, IfOk, MatchOption, length};
ghost use Rattle.reversibility.specs.ClassParts.{CoversState};
ghost use Rattle.plan_runner.specs.WaysBack.{AreBackPairs, GoesNowhere, GoesOnlyTo};

use cca_base::{Goal, List, Pair, State};
use policy_tables::Tables;
use std::alloc::{AllocError, Global};

/// Where the component is to go back to.
fn mode_back(tables: &Tables, to: &State, component: u16) -> Option<u8>
    requires covers { CoversState tables.now.classes to.now.modes }
    requires within { component < length tables.now.classes.compiled.model.components }
    ensures { MatchOption result (GoesNowhere tables.now.classes to.now.modes component)
        (GoesOnlyTo tables.now.classes to.now.modes component) }
{
    let classes = tables.classes();
    let mode = *to.modes.get(component as usize);
    match classes.compiled().model().mended(component, mode) {
        None => Some(mode),
        Some(mended) => {
            if classes.mendable(component) {
                Some(mended)
            } else {
                None
            }
        }
    }
}

/// The goal of the way back to where a state stands: the modes that are not broken, and the mended modes of what is
/// mendable.
#[tactic(auto, using(crate::proofs::GoingBack::taken_whole))]
pub(crate) fn back_goal(alloc: Global, tables: &Tables, to: &State) -> Result<Goal, AllocError>
    requires { CoversState tables.now.classes to.now.modes }
    ensures { IfOk result (λ g.
        AreBackPairs tables.now.classes to.now.modes tables.now.classes.compiled.order g.pairs) }
{
    let order = tables.classes().compiled().order();
    let mut pairs = List::new(alloc);
    for i in 0..order.len() {
        let c = *order.get(i);
        if let Some(value) = mode_back(tables, to, c) {
            pairs.push(Pair { item: c, value })?;
        }
    }
    Ok(Goal { pairs })
}
