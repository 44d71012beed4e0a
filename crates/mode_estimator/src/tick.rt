//! A tick as a question of paths: each component chooses a mode from its row, and the state that they make is to have a world that
//! agrees with what is seen.

ghost use Rattle.std.specs.Prelude.{◌≡◌, ◌<◌, ◌≤◌, true, All, length, Some, false, filter, not};
ghost use Rattle.cca_base.specs.Prelude.{HasValue, IsCube};
ghost use Rattle.cca_base.specs.Relations.{numbers_below};
ghost use Rattle.cca_base.specs.declared.choice.Choice.{Choice};
ghost use Rattle.cca_base.specs.declared.cube.Pair.{Pair};
ghost use Rattle.cca_base.specs.declared.limits.TheConstants.{MAX_ROWS};
ghost use Rattle.mode_estimator.specs.Ticks.{AreRowsOf, IsNextIn, ArePairsOf, is_fixed};

use crate::space::TickSpace;
use bounded_list::BoundedList;
use cca_base::{Choice, Pair};
use consistency::Rules;
use group_search::{Columns, Paths, has_value, is_in_group};
use successors::ChoiceRows;

/// What each component may choose at a tick, and what is seen.
#[derive(Drop)]
pub(crate) struct Tick<'a, 'b> {
    pub rules: &'a Rules<'a>,
    pub seen: &'a [Pair],
    pub rows: &'b ChoiceRows,
    /// The component of each place: itself.
    pub components: &'b [u16],
    ghost values: { All (λ p. HasValue rules.now.model.now p.item p.value) seen.now },
    ghost of_rows: { AreRowsOf rules.now.model.now rows.now.rows },
    ghost places: { components.now ≡ numbers_below (length rows.now.rows) },
}

/// The place of the row's first choice from a place on whose mode is in the set.
fn next_in(row: &[Choice], mask: u64, from: usize) -> Option<usize>
    requires { from ≤ length row.now }
    ensures { IsNextIn row.now mask from result }
{
    for at in from..row.len() {
        if has_value(mask, row[at].mode) {
            return Some(at);
        }
    }
    None
}

/// Writes the components of the group with their modes, and those with one choice with the mode of that choice.
fn write_pairs(
    rows: &ChoiceRows,
    modes: &[u8],
    names: &[u16],
    group: Option<u16>,
    pairs: &mut BoundedList<Pair>,
)
    requires rows { length rows.now.rows ≡ length modes.now }
    requires names { length names.now ≡ length modes.now }
    requires few { length modes.now ≤ MAX_ROWS }
    requires room { length modes.now ≤ pairs.old.room }
    ensures cube { IsCube pairs.new.items }
    ensures pairs { ArePairsOf rows.now.rows names.now group modes.now pairs.new.items }
    ensures room { pairs.new.room ≡ pairs.old.room }
{
    pairs.clear();
    for c in 0..modes.len() {
        let item = c as u16;
        let row = rows.get(c);
        if row.len() == 1 {
            pairs.push(Pair {
                item,
                value: row[0].mode,
            });
        } else if is_in_group(names, group, item) {
            pairs.push(Pair {
                item,
                value: modes[c],
            });
        }
    }
}

/// Writes the pairs of components that have more than one choice: each state has the others.
fn write_free(rows: &ChoiceRows, pairs: &[Pair], part: &mut BoundedList<Pair>)
    requires rows { All (λ p. p.item < length rows.now.rows) pairs.now }
    requires room { length pairs.now ≤ part.old.room }
    ensures part { part.new.items ≡ filter (λ p. not (is_fixed rows.now.rows p.item)) pairs.now }
    ensures room { part.new.room ≡ part.old.room }
{
    part.clear();
    for pair in pairs {
        if rows.get(pair.item as usize).len() != 1 {
            part.push(*pair);
        }
    }
}

impl<'a, 'b> Paths<TickSpace> for Tick<'a, 'b> {
    ghost use Rattle.mode_estimator.specs.TickLaws.{tick_few, tick_means, tick_own, tick_owned, tick_whole};

    ghost means = { tick_means };

    ghost owned = { tick_owned };

    ghost few = { tick_few };

    ghost whole = { tick_whole };

    ghost own_places = { tick_own };

    fn components(&self) -> &[u16] {
        self.components
    }

    fn count(&self) -> usize {
        self.rows.len()
    }

    fn room(&self) -> usize {
        0
    }

    fn column(&self, component: u16, masks: &[u64], columns: &mut Columns) -> bool {
        let at = component as usize;
        let row = self.rows.get(at);
        let Some(first) = next_in(row, masks[at], 0) else {
            return false;
        };
        let price = match next_in(row, masks[at], first + 1) {
            None => None,
            Some(next) => Some(row[next].cost.saturating_sub(row[first].cost)),
        };
        columns.values.set(at, row[first].mode);
        columns.prices.set(at, price);
        columns.costs.set(at, row[first].cost);
        true
    }

    fn clash(
        &self,
        space: &mut TickSpace,
        values: &[u8],
        costs: &[u64],
        names: &[u16],
        group: Option<u16>,
        cut: &mut BoundedList<Pair>,
    ) -> bool {
        write_pairs(self.rows, values, names, group, &mut space.asked);
        let (rules, seen, asked) = (self.rules, self.seen, space.asked.as_slice());
        if !rules.worlds.clash_into(
            rules.model,
            asked,
            seen,
            &mut space.worlds,
            &mut space.blamed,
        ) {
            return false;
        }
        write_free(self.rows, space.blamed.as_slice(), cut);
        true
    }
}
