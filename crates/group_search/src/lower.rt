//! Of the least solutions the one whose values come first: place by place each lower value is asked for.

ghost use Rattle.std.specs.Prelude.{◌≡◌, ◌<◌, ◌≤◌, ◌+◌, ◌^◌, ◌==◌, true, false, length, not, slice_index, slice_set};
ghost use Rattle.group_search.specs.Answers.{IsFirstLeast, IsLowerBox, NoneLower};
ghost use Rattle.group_search.specs.Floors.{AreJoined, HasFloors, IsSettled, every};
ghost use Rattle.group_search.specs.Questions.{CostsAtLeast, IsInside, cost_in};
ghost use Rattle.group_search.specs.Rooms.{IsShaped};
ghost use Rattle.group_search.specs.Works.{IsWork};

use crate::columns::Chosen;
use crate::groups::group_cost;
use crate::question::Paths;
use crate::settle::{search_group, settle};
use crate::staying::keeps_value;
use crate::values::{below, only};
use crate::work::Work;
use std::mem::swap;

/// A solution of the same cost in a box where the place has lower values alone, beside the paths so far; false: there is none.
fn settle_again<P: Paths<S>, S>(
    problem: &P,
    space: &mut S,
    work: &mut Work,
    chosen: &Chosen,
    other: &mut Chosen,
    limit: u64,
    place: u16,
) -> bool
    requires space { P.means.is_space problem.now space.old }
    requires work { IsWork (P.means.question problem.now) work.old }
    requires place { place < length (P.means.question problem.now).of }
    requires floors { HasFloors (P.means.question problem.now) work.old.boxed.masks work.old.names chosen.now }
    requires inside { IsInside (P.means.question problem.now) (λ c. not (c == slice_index (P.means.question problem.now).of place))
        work.old.boxed.masks chosen.now.values }
    requires less { cost_in (P.means.question problem.now).count every chosen.now.costs < limit }
    requires shape { IsShaped (P.means.question problem.now) other.old }
    ensures space { P.means.is_space problem.now space.new }
    ensures work { IsWork (P.means.question problem.now) work.new }
    ensures joined { AreJoined work.old.names work.new.names }
    ensures masks { work.new.boxed.masks ≡ work.old.boxed.masks }
    ensures shape { IsShaped (P.means.question problem.now) other.new }
    ensures some { result ≡ true →
        IsSettled (P.means.question problem.now) work.old.boxed.masks work.new.names limit other.new }
    ensures none { result ≡ false → CostsAtLeast (P.means.question problem.now) every work.old.boxed.masks limit }
{
    other.take(chosen);
    let component = problem.components()[place as usize];
    let group = *work.names.get(component as usize);
    if !search_group(problem, space, work, other, group, limit) {
        return false;
    }
    settle(problem, space, work, other, limit)
}

/// A solution of the same cost with a lower value at the place, which may have lower ones alone then. False comes only where there is
/// none, and the box is as before.
fn lower_once<P: Paths<S>, S>(
    problem: &P,
    space: &mut S,
    work: &mut Work,
    chosen: &mut Chosen,
    other: &mut Chosen,
    limit: u64,
    place: u16,
) -> bool
    requires space { P.means.is_space problem.now space.old }
    requires work { IsWork (P.means.question problem.now) work.old }
    requires place { place < length (P.means.question problem.now).of }
    requires settled { IsSettled (P.means.question problem.now) work.old.boxed.masks work.old.names limit chosen.old }
    requires shape { IsShaped (P.means.question problem.now) other.old }
    ensures space { P.means.is_space problem.now space.new }
    ensures work { IsWork (P.means.question problem.now) work.new }
    ensures joined { AreJoined work.old.names work.new.names }
    ensures shape { IsShaped (P.means.question problem.now) other.new }
    ensures settled { result ≡ true →
        IsSettled (P.means.question problem.now) work.new.boxed.masks work.new.names limit chosen.new }
    ensures lower { result ≡ true → slice_index chosen.new.values place < slice_index chosen.old.values place }
    ensures masks { result ≡ true → IsLowerBox place (slice_index chosen.old.values place) work.old.boxed.masks work.new.boxed.masks }
    ensures none { result ≡ false → NoneLower (P.means.question problem.now) work.old.boxed.masks limit place
        (slice_index chosen.old.values place) }
    ensures same { result ≡ false → work.new.boxed.masks ≡ work.old.boxed.masks }
    ensures kept { result ≡ false → chosen.new ≡ chosen.old }
{
    let before = *work.boxed.masks.get(place as usize);
    let lower = below(before, *chosen.values.get(place as usize));
    if lower == 0 || keeps_value(problem, work, chosen, limit, place) {
        return false;
    }
    work.boxed.put(problem, place, lower);
    if !settle_again(problem, space, work, chosen, other, limit, place) {
        work.boxed.put(problem, place, before);
        return false;
    }
    swap(chosen, other);
    true
}

/// Of the solutions below the limit one with the least value at the place, which may have this one alone then.
fn lower_at<P: Paths<S>, S>(
    problem: &P,
    space: &mut S,
    work: &mut Work,
    chosen: &mut Chosen,
    other: &mut Chosen,
    limit: u64,
    place: u16,
)
    requires space { P.means.is_space problem.now space.old }
    requires work { IsWork (P.means.question problem.now) work.old }
    requires place { place < length (P.means.question problem.now).of }
    requires settled { IsSettled (P.means.question problem.now) work.old.boxed.masks work.old.names limit chosen.old }
    requires shape { IsShaped (P.means.question problem.now) other.old }
    ensures space { P.means.is_space problem.now space.new }
    ensures work { IsWork (P.means.question problem.now) work.new }
    ensures shape { IsShaped (P.means.question problem.now) other.new }
    ensures settled { IsSettled (P.means.question problem.now) work.new.boxed.masks work.new.names limit chosen.new }
    ensures lowest { NoneLower (P.means.question problem.now) work.old.boxed.masks limit place (slice_index chosen.new.values place) }
    ensures masks { work.new.boxed.masks ≡ slice_set work.old.boxed.masks place (2 ^ slice_index chosen.new.values place) }
    ensures inside { IsInside (P.means.question problem.now) every work.old.boxed.masks chosen.new.values }
{
    while lower_once(problem, space, work, chosen, other, limit, place) {}
    let value = *chosen.values.get(place as usize);
    work.boxed.narrow(problem, place, only(value));
}

/// Of the solutions that cost as little as this one the one whose first values come first.
pub(crate) fn lower<P: Paths<S>, S>(
    problem: &P,
    space: &mut S,
    work: &mut Work,
    chosen: &mut Chosen,
    other: &mut Chosen,
    count: usize,
)
    requires space { P.means.is_space problem.now space.old }
    requires work { IsWork (P.means.question problem.now) work.old }
    requires count { count ≤ length (P.means.question problem.now).of }
    requires settled { IsSettled (P.means.question problem.now) work.old.boxed.masks work.old.names
        (cost_in (P.means.question problem.now).count every chosen.old.costs + 1) chosen.old }
    requires shape { IsShaped (P.means.question problem.now) other.old }
    ensures space { P.means.is_space problem.now space.new }
    ensures work { IsWork (P.means.question problem.now) work.new }
    ensures shape { IsShaped (P.means.question problem.now) chosen.new }
    ensures other_shape { IsShaped (P.means.question problem.now) other.new }
    ensures first { IsFirstLeast (P.means.question problem.now) work.old.boxed.masks count chosen.new }
{
    let limit = group_cost(work.names.as_slice(), None, chosen.costs.as_slice()) + 1;
    for place in 0..count {
        lower_at(problem, space, work, chosen, other, limit, place as u16);
    }
}
