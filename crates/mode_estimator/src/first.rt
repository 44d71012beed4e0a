//! The first state by cost and then in mode order that explains what is seen, as the least solution of a tick's question.

ghost use Rattle.std.specs.Prelude.{◌≡◌, ◌<◌, All, length, true, Contains};
ghost use Rattle.cca_base.specs.Prelude.{HasValue};
ghost use Rattle.cca_base.specs.Sets.{has};
ghost use Rattle.cca_base.specs.declared.choice.Choice.{Choice};
ghost use Rattle.cca_base.specs.declared.limits.TheConstants.{MAX_CHOICES};
ghost use Rattle.mode_estimator.specs.First.{IsFirstShown, found_in};
ghost use Rattle.mode_estimator.specs.Spaces.{IsEstimateSpace};
ghost use Rattle.mode_estimator.specs.Ticks.{AreMasks, AreRowsOf};

use crate::space::EstimateSpace;
use crate::tick::Tick;
use cca_base::{Choice, List, MAX_CHOICES, Pair, ValueSet};
use consistency::Rules;
use group_search::{group_cost, least_in};
use successors::ChoiceRows;

/// The modes of the row.
fn mask_of(row: &[Choice]) -> u64
    ensures { (x : Choice) → Contains row.now x → x.mode < MAX_CHOICES → has result x.mode ≡ true }
{
    let mut modes = ValueSet::empty();
    for choice in row {
        if (choice.mode as usize) < MAX_CHOICES {
            modes = modes.with(choice.mode);
        }
    }
    modes.bits()
}

/// Writes the modes of each row.
fn write_masks(rows: &ChoiceRows, masks: &mut List<u64>)
    requires { length masks.old ≡ length rows.now.rows }
    ensures full { length masks.new ≡ length rows.now.rows }
    ensures masks { AreMasks rows.now.rows masks.new }
{
    for at in 0..rows.len() {
        masks.set(at, mask_of(rows.get(at)));
    }
}

/// Writes modes over others.
pub(crate) fn copy_modes(from: &List<u8>, to: &mut List<u8>)
    requires { length to.old ≡ length from.now }
    ensures { to.new ≡ from.now }
{
    for at in 0..from.len() {
        to.set(at, *from.get(at));
    }
}

/// The first of the states that may be chosen and that have a world agreeing with what is seen: what it costs, and the state is the found
/// one of the memory. None where there is none.
pub(crate) fn first_shown<'a>(
    rules: &'a Rules<'a>,
    seen: &'a [Pair],
    space: &mut EstimateSpace,
) -> Option<u64>
    requires rows { AreRowsOf rules.now.model.now space.old.choices.rows.rows }
    requires seen { All (λ p. HasValue rules.now.model.now p.item p.value) seen.now }
    requires space { IsEstimateSpace rules.now.model.now rules.now.worlds.now space.old }
    ensures first { IsFirstShown rules.now.model.now space.old.choices.rows.rows seen.now
        (found_in result space.new.found) }
    ensures space { IsEstimateSpace rules.now.model.now rules.now.worlds.now space.new }
{
    let rows = space.choices.rows();
    let components = space.components.as_slice();
    let tick = Tick {
        rules,
        seen,
        rows,
        components,
    };
    write_masks(rows, &mut space.masks);
    let masks = space.masks.as_slice();
    if !least_in(&tick, &mut space.tick, &mut space.search, masks, rows.len()) {
        return None;
    }
    let least = space.search.chosen();
    let cost = group_cost(components, None, least.costs.as_slice());
    copy_modes(&least.values, &mut space.found.modes);
    Some(cost)
}
