//! The least paths of a group, by depth-first branch and bound.

ghost use Rattle.std.specs.Prelude.{◌≡◌, ◌⊎◌, [], ◌<◌, ◌≤◌, length, true, false};
ghost use Rattle.group_search.specs.Bounds.{IsOpen};
ghost use Rattle.group_search.specs.Columns.{IsBox};
ghost use Rattle.group_search.specs.Halves.{IsBack, IsSplit, SplitOwn, left_of, undone};
ghost use Rattle.group_search.specs.Questions.{CostsAtLeast, cost_in, in_group};
ghost use Rattle.group_search.specs.Rooms.{HasSplits};
ghost use Rattle.group_search.specs.Searches.{IsFind, IsTurned};
ghost use Rattle.group_search.specs.Works.{AreMembers, IsWork};

use crate::focus::cost_of;
use crate::halves::{Half, Halves};
use crate::judge::{Verdict, judge};
use crate::path_box::PathBox;
use crate::question::Paths;
use crate::values::{only, without};
use crate::work::Work;
use cca_base::Pair;

/// Leaves the pair, and puts off the half where its place has its value alone.
fn split<P: Paths<S>, S>(problem: &P, boxed: &mut PathBox, halves: &mut Halves, pair: Pair)
    requires ready { IsBox (P.means.question problem.now) boxed.old }
    requires open { IsOpen (P.means.question problem.now) (λ c. true) boxed.old.masks pair }
    requires room { length halves.old.items < halves.old.room }
    ensures ready { IsBox (P.means.question problem.now) boxed.new }
    ensures split { IsSplit pair boxed.old.masks boxed.new.masks halves.old.items halves.new.items }
    ensures room { halves.new.room ≡ halves.old.room }
{
    let before = *boxed.masks.get(pair.item as usize);
    halves.push(Half {
        item: pair.item,
        before,
        left: only(pair.value),
    });
    boxed.put(problem, pair.item, without(before, pair.value));
}

/// Goes to the newest half that is left; false: there is none, and the box is as it was before the splits.
fn go_back<P: Paths<S>, S>(problem: &P, boxed: &mut PathBox, halves: &mut Halves) -> bool
    requires ready { IsBox (P.means.question problem.now) boxed.old }
    requires own { SplitOwn (P.means.question problem.now) (λ c. true) halves.old.items }
    ensures ready { IsBox (P.means.question problem.now) boxed.new }
    ensures back { result ≡ true → IsBack boxed.old.masks boxed.new.masks halves.old.items halves.new.items }
    ensures none { result ≡ false → left_of halves.old.items boxed.old.masks ≡ [] }
    ensures end { result ≡ false → (halves.new.items ≡ []) × (boxed.new.masks ≡ undone halves.old.items boxed.old.masks) }
    ensures room { halves.new.room ≡ halves.old.room }
{
    while let Some(half) = halves.pop() {
        if half.left != 0 {
            boxed.put(problem, half.item, half.left);
            halves.push(Half { left: 0, ..half });
            return true;
        }
        boxed.put(problem, half.item, half.before);
    }
    false
}

/// The box is as it was before the splits.
fn undo_all<P: Paths<S>, S>(problem: &P, boxed: &mut PathBox, halves: &mut Halves)
    requires ready { IsBox (P.means.question problem.now) boxed.old }
    requires own { SplitOwn (P.means.question problem.now) (λ c. true) halves.old.items }
    ensures ready { IsBox (P.means.question problem.now) boxed.new }
    ensures undone { boxed.new.masks ≡ undone halves.old.items boxed.old.masks }
    ensures room { halves.new.room ≡ halves.old.room }
{
    while let Some(half) = halves.pop() {
        boxed.put(problem, half.item, half.before);
    }
}

/// One turn at the box at hand; false: nothing is left.
fn turn<P: Paths<S>, S>(problem: &P, space: &mut S, work: &mut Work, group: Option<u16>) -> bool
    requires space { P.means.is_space problem.now space.old }
    requires work { IsWork (P.means.question problem.now) work.old }
    requires members { AreMembers (P.means.question problem.now) work.old.names group work.old.focus.members.items }
    requires own { SplitOwn (P.means.question problem.now) (λ c. true) work.old.halves.items }
    requires room { HasSplits work.old.boxed.masks work.old.halves }
    ensures space { P.means.is_space problem.now space.new }
    ensures members { work.new.focus.members ≡ work.old.focus.members }
    ensures work { IsWork (P.means.question problem.now) work.new }
    ensures names { work.new.names ≡ work.old.names }
    ensures turned { IsTurned (P.means.question problem.now) work.old.names group work.old.boxed.masks work.new.boxed.masks
        work.old.halves.items work.new.halves.items work.old.best work.new.best result }
{
    match judge(problem, space, work, group, work.best.limit) {
        Verdict::Dropped => go_back(problem, &mut work.boxed, &mut work.halves),
        Verdict::Split(pair) => {
            split(problem, &mut work.boxed, &mut work.halves, pair);
            true
        }
        Verdict::Found => {
            let columns = &work.boxed.columns;
            let cost = cost_of(work.focus.members.as_slice(), columns.costs.as_slice());
            work.best.put(columns, cost);
            go_back(problem, &mut work.boxed, &mut work.halves)
        }
    }
}

/// Paths of the group that cost less than the limit, as the best ones: no solution costs less there, or they cost no more than the floor.
/// Of all components they are a solution. False comes only where no solution costs less than the limit.
pub(crate) fn find<P: Paths<S>, S>(
    problem: &P,
    space: &mut S,
    work: &mut Work,
    group: Option<u16>,
    floor: u64,
    limit: u64,
) -> bool
    requires space { P.means.is_space problem.now space.old }
    requires work { IsWork (P.means.question problem.now) work.old }
    requires floor { floor < limit }
    ensures space { P.means.is_space problem.now space.new }
    ensures work { IsWork (P.means.question problem.now) work.new }
    ensures names { work.new.names ≡ work.old.names }
    ensures masks { work.new.boxed.masks ≡ work.old.boxed.masks }
    ensures find { result ≡ true →
        IsFind (P.means.question problem.now) work.old.names group work.old.boxed.masks work.new.best.found }
    ensures less { result ≡ true →
        cost_in (P.means.question problem.now).count (in_group work.old.names group) work.new.best.found.costs < limit }
    ensures least { result ≡ true →
        (cost_in (P.means.question problem.now).count (in_group work.old.names group) work.new.best.found.costs ≤ floor)
        ⊎ CostsAtLeast (P.means.question problem.now) (in_group work.old.names group) work.old.boxed.masks
        (cost_in (P.means.question problem.now).count (in_group work.old.names group) work.new.best.found.costs) }
    ensures none { result ≡ false →
        CostsAtLeast (P.means.question problem.now) (in_group work.old.names group) work.old.boxed.masks limit }
{
    let names = work.names.as_slice();
    work.focus
        .look(names, group, problem.components(), &work.cuts);
    work.halves.clear();
    work.best.begin(limit);
    'boxes: loop {
        if !turn(problem, space, work, group) {
            return work.best.is_found;
        }
        if work.best.limit <= floor {
            undo_all(problem, &mut work.boxed, &mut work.halves);
            return work.best.is_found;
        }
    }
}
