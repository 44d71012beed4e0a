//! A gate that is other than the one that a walk goes by, and the modes that make it so.

ghost use Rattle.std.specs.Prelude.{◌≡◌, ◌<◌, ◌≤◌, ℕ, List, true, false, length, slice_get, slice_index, Some};
ghost use Rattle.cca_base.specs.Prelude.{IsCube};
ghost use Rattle.cca_base.specs.MoveIndex.{IsMoveNamed};
ghost use Rattle.cca_base.specs.State.{Extends};
ghost use Rattle.group_search.specs.Questions.{IsWhole, in_group};
ghost use Rattle.trajectory_estimator.specs.Clashes.{AreOwn, AreWalks, Blames, IsClashOf, IsGateOf, IsNamedAt};
ghost use Rattle.trajectory_estimator.specs.Walks.{gate_place, record_at};
ghost use Rattle.trajectory_estimator.specs.Windows.{HasGate, window_of};

use crate::before::Before;
use crate::group_paths::GroupPaths;
use crate::leaving::{OPEN, SHUT};
use bounded_list::BoundedList;
use cca_base::{Move, Pair};

/// Where the component's gate at the record stands.
fn gate_place(before: &Before<'_>, component: u16) -> usize
    requires { component < length before.now.modes.now }
    ensures { result ≡ gate_place before.now.paths.query.now component before.now.at }
{
    let paths = &before.paths;
    (paths.query.records().len() + before.at) * paths.count() + component as usize
}

/// Writes the value of the move's gate, and that its source stands.
fn gate_cut(before: &Before<'_>, step: &Move, cut: &mut BoundedList<Pair>)
    requires component { step.now.component < length before.now.modes.now }
    requires own { in_group before.now.paths.names.now before.now.paths.group step.now.component ≡ true }
    requires source { slice_get before.now.modes.now step.now.component ≡ Some step.now.source }
    requires room { length (window_of before.now.paths.query.now).of ≤ cut.old.room }
    ensures own { AreOwn before.now.paths cut.new.items }
    ensures gate { (values : List ℕ) → Extends values cut.new.items → IsGateOf before.now step.now.component values }
    ensures source { Blames before.now cut.new.items (record { item = step.now.component; value = step.now.source }) }
    ensures cube { IsCube cut.new.items }
    ensures room { cut.new.room ≡ cut.old.room }
{
    let paths = &before.paths;
    let row = paths.query.records().len() + before.at;
    let place = row * paths.count() + step.component as usize;
    cut.clear();
    cut.push(Pair {
        item: place as u16,
        value: paths.values[place],
    });
    let source = Pair {
        item: step.component,
        value: step.source,
    };
    before.blame(cut, source);
}

/// Whether the gate of the move that is named isn't the one that its walk goes by: why is written then. False says of a group of all
/// components that it is.
fn cause_against(before: &Before<'_>, number: u16, cut: &mut BoundedList<Pair>) -> bool
    requires walks { AreWalks before.now.paths }
    requires named { IsNamedAt before.now number }
    requires room { length (window_of before.now.paths.query.now).of ≤ cut.old.room }
    ensures clash { result ≡ true → IsClashOf before.now.paths cut.new.items }
    ensures none { result ≡ false → IsWhole (window_of before.now.paths.query.now) before.now.paths.names.now before.now.paths.group →
        HasGate before.now.paths.query.now before.now.paths.values.now before.now.at }
    ensures room { cut.new.room ≡ cut.old.room }
{
    let query = before.paths.query;
    let ways = query.compiled().ways().get(number as usize).as_slice();
    let step = query.model().moves().get(number as usize);
    gate_cut(before, step, cut);
    let value = before.paths.values[gate_place(before, step.component)];
    if value == OPEN {
        return before.blame_each(cut, ways);
    }
    if value == SHUT {
        if let Some(cube) = before.standing(ways) {
            before.blame_all(cut, cube);
            return true;
        }
    }
    false
}

/// Whether a gate at the record isn't the one that its walk goes by: values of the group are written then by which it isn't. False says
/// of a group of all components that the walks go by the real gate.
pub(crate) fn gate_clash(paths: &GroupPaths<'_>, at: usize, cut: &mut BoundedList<Pair>) -> bool
    requires walks { AreWalks paths.now }
    requires at { at < length paths.now.query.now.records }
    requires room { length (window_of paths.now.query.now).of ≤ cut.old.room }
    ensures clash { result ≡ true → IsClashOf paths.now cut.new.items }
    ensures none { result ≡ false → IsWhole (window_of paths.now.query.now) paths.now.names.now paths.now.group →
        HasGate paths.now.query.now paths.now.values.now at }
    ensures room { cut.new.room ≡ cut.old.room }
{
    let query = paths.query;
    let before = Before::of(*paths, at);
    let Some(command) = query.records()[at].command else {
        return false;
    };
    let Some(number) = before.named(command) else {
        return false;
    };
    if !paths.has(query.model().moves().get(number as usize).component) {
        return false;
    }
    cause_against(&before, number, cut)
}
