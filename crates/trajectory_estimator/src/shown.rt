//! A clash of a group's modes with what was seen at a record.

ghost use Rattle.std.specs.Prelude.{◌≡◌, ◌<◌, ◌≤◌, ◌*◌, true, false, All, filter, length, not};
ghost use Rattle.cca_base.specs.Prelude.{IsCube};
ghost use Rattle.cca_base.specs.Shown.{CanShow};
ghost use Rattle.group_search.specs.Questions.{IsWhole};
ghost use Rattle.trajectory_estimator.specs.Clashes.{AreMoved, ArePairsAt, AreWalks, IsClashOf, stands_still};
ghost use Rattle.trajectory_estimator.specs.Spaces.{IsWindowSpace};
ghost use Rattle.trajectory_estimator.specs.Walks.{record_at};
ghost use Rattle.trajectory_estimator.specs.Windows.{state_at, window_of};

use crate::group_paths::GroupPaths;
use crate::space::WindowSpace;
use bounded_list::BoundedList;
use cca_base::Pair;

/// Writes the group's components with their modes behind the record, and those that stand still with that of the anchor.
fn write_pairs(paths: &GroupPaths<'_>, at: usize, pairs: &mut BoundedList<Pair>)
    requires at { at < length paths.now.query.now.records }
    requires room { length paths.now.query.now.model.components ≤ pairs.old.room }
    ensures cube { IsCube pairs.new.items }
    ensures pairs { ArePairsAt paths.now at pairs.new.items }
    ensures room { pairs.new.room ≡ pairs.old.room }
{
    let modes = paths.modes_at(at);
    let anchor = paths.query.anchor();
    pairs.clear();
    for c in 0..paths.count() {
        let item = c as u16;
        if paths.still[c] {
            pairs.push(Pair {
                item,
                value: *anchor.modes.get(c),
            });
        } else if paths.has(item) {
            pairs.push(Pair {
                item,
                value: modes[c],
            });
        }
    }
}

/// Writes the pairs of components that don't stand still, at the places of their modes behind the record: each solution has the others.
fn write_cut(paths: &GroupPaths<'_>, at: usize, cube: &[Pair], cut: &mut BoundedList<Pair>)
    requires at { at < length paths.now.query.now.records }
    requires components { All (λ p. p.item < length paths.now.query.now.model.components) cube.now }
    requires room { length cube.now ≤ cut.old.room }
    ensures cut { AreMoved paths.now.query.now at (filter (λ p. not (stands_still paths.now p.item)) cube.now) cut.new.items }
    ensures room { cut.new.room ≡ cut.old.room }
{
    let first = (at * paths.count()) as u16;
    cut.clear();
    for pair in cube {
        if !paths.still[pair.item as usize] {
            cut.push(Pair {
                item: first + pair.item,
                value: pair.value,
            });
        }
    }
}

/// Whether no trajectory has modes of the group together behind a record: such modes are written then. False says of a group of all
/// components that their state can show what was seen.
pub(crate) fn shown_clash(
    paths: &GroupPaths<'_>,
    at: usize,
    space: &mut WindowSpace,
    cut: &mut BoundedList<Pair>,
) -> bool
    requires walks { AreWalks paths.now }
    requires at { at < length paths.now.query.now.records }
    requires space { IsWindowSpace paths.now.query.now.worlds (length paths.now.query.now.model.components) space.old }
    requires room { length (window_of paths.now.query.now).of ≤ cut.old.room }
    ensures space { IsWindowSpace paths.now.query.now.worlds (length paths.now.query.now.model.components) space.new }
    ensures clash { result ≡ true → IsClashOf paths.now cut.new.items }
    ensures none { result ≡ false → IsWhole (window_of paths.now.query.now) paths.now.names.now paths.now.group →
        CanShow paths.now.query.now.model (state_at paths.now.query.now paths.now.values.now at) (record_at paths.now.query.now at).seen }
    ensures room { cut.new.room ≡ cut.old.room }
{
    let query = paths.query;
    write_pairs(paths, at, &mut space.asked);
    let asked = space.asked.as_slice();
    let seen = query.records()[at].seen.pairs.as_slice();
    if !query.worlds().clash_into(
        query.model(),
        asked,
        seen,
        &mut space.worlds,
        &mut space.blamed,
    ) {
        return false;
    }
    write_cut(paths, at, space.blamed.as_slice(), cut);
    true
}
