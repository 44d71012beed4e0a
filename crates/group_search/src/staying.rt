//! Places that keep their values below a limit.

ghost use Rattle.std.specs.Prelude.{◌≡◌, ◌<◌, ◌≤◌, ℕ, IfSome, length, slice_index, slice_index_or, true, false, Some};
ghost use Rattle.group_search.specs.Answers.{NoneLower};
ghost use Rattle.group_search.specs.Floors.{IsSettled};
ghost use Rattle.group_search.specs.Questions.{cost_in, in_group};
ghost use Rattle.group_search.specs.Works.{IsWork};
ghost use Rattle.cca_base.specs.declared.limits.TheConstants.{MAX_ROWS};

use crate::columns::Chosen;
use crate::groups::{group_cost, is_in_group};
use crate::path_box::PathBox;
use crate::question::Paths;
use crate::spending::price_of;
use crate::work::Work;
use cca_base::Pair;

/// No more than what the least paths of the group cost. None comes where one of its components has none.
fn least_cost(names: &[u16], group: u16, boxed: &PathBox) -> Option<u64>
    requires few { length names.now ≤ MAX_ROWS }
    requires stands { length boxed.now.stands ≡ length names.now }
    requires costs { length boxed.now.columns.costs ≡ length names.now }
    ensures cost { IfSome result (λ cost. cost ≤ cost_in (length names.now) (in_group names.now (Some group)) boxed.now.columns.costs) }
    ensures stand { IfSome result (λ cost. (c : ℕ) → c < length names.now → in_group names.now (Some group) c ≡ true →
        slice_index_or boxed.now.stands c false ≡ true) }
{
    let mut cost: u64 = 0;
    for c in 0..names.len() {
        if is_in_group(names, Some(group), c as u16) {
            if !*boxed.stands.get(c) {
                return None;
            }
            cost = cost.saturating_add(*boxed.columns.costs.get(c));
        }
    }
    Some(cost)
}

/// True comes only where no solution below the limit has a lower value at the place. Where the component's least path has the value, a
/// solution that leaves it pays the price, beside the least paths of its group and the floors of the others.
pub(crate) fn keeps_value<P: Paths<S>, S>(
    problem: &P,
    work: &Work,
    chosen: &Chosen,
    limit: u64,
    place: u16,
) -> bool
    requires work { IsWork (P.means.question problem.now) work.now }
    requires place { place < length (P.means.question problem.now).of }
    requires settled { IsSettled (P.means.question problem.now) work.now.boxed.masks work.now.names limit chosen.now }
    ensures { result ≡ true → NoneLower (P.means.question problem.now) work.now.boxed.masks limit place
        (slice_index chosen.now.values place) }
{
    let value = *chosen.values.get(place as usize);
    if *work.boxed.columns.values.get(place as usize) != value {
        return false;
    }
    let names = work.names.as_slice();
    let group = names[problem.components()[place as usize] as usize];
    let Some(least) = least_cost(names, group, &work.boxed) else {
        return false;
    };
    let costs = chosen.costs.as_slice();
    let others = group_cost(names, None, costs) - group_cost(names, Some(group), costs);
    let pair = Pair { item: place, value };
    match price_of(problem, &work.boxed, pair) {
        None => true,
        Some(price) => others.saturating_add(least).saturating_add(price) >= limit,
    }
}
