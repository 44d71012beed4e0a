//! A bound by spending: each cut that the least paths hold takes the least that one of its pairs has left, from each component of
//! the cut, and the bound rises by it.

ghost use Rattle.std.specs.Prelude.{◌≡◌, ◌≢◌, ◌<◌, ◌≤◌, ◌+◌, ◌-◌, ◌^◌, ℕ, true, false, All, IfOk, IfSome, IsNone, length, slice_index, slice_index_or, min};
ghost use Rattle.cca_base.specs.Sets.{has};
ghost use Rattle.group_search.specs.Bounds.{AllStand, EachPays, IsHeld, LeavesAt, Leaves};
ghost use Rattle.group_search.specs.Columns.{IsBox};
ghost use Rattle.group_search.specs.Questions.{CostsAtLeast, IsCut, cost_in, in_group};
ghost use Rattle.group_search.specs.Works.{IsWork, KeepsBox};

use crate::groups::is_in_group;
use crate::path_box::PathBox;
use crate::question::Paths;
use crate::store::Store;
use crate::values::without;
use crate::work::Work;
use cca_base::{List, Pair};
use std::alloc::{AllocError, Global};

/// What cuts have taken from each component, and how many of them name it.
#[derive(Debug, Drop)]
pub struct Spending {
    pub spent: List<u64>,
    pub named: List<u32>,
}

impl Spending {
    /// Numbers for so many components. The error is out of memory.
    pub(crate) fn of(alloc: Global, count: usize) -> Result<Spending, AllocError>
        ensures spent { IfOk result (λ s. length s.spent ≡ count) }
        ensures named { IfOk result (λ s. length s.named ≡ count) }
    {
        let mut spent = List::new(alloc);
        let mut named = List::new(alloc);
        for _ in 0..count {
            spent.push(0)?;
            named.push(0)?;
        }
        Ok(Spending { spent, named })
    }

    /// Begins again at these components; what stands as spent may be anything.
    fn clear(&mut self, members: &[u16])
        requires { length self.old.named ≡ length self.old.spent }
        ensures spent { length self.new.spent ≡ length self.old.spent }
        ensures named { length self.new.named ≡ length self.old.named }
    {
        for c in members {
            let at = *c as usize;
            if at < self.spent.len() {
                self.spent.set(at, 0);
                self.named.set(at, 0);
            }
        }
    }
}

/// What a component costs more at least where a place of its least path has another value. None: no solution there has one.
pub(crate) fn price_of<P: Paths<S>, S>(problem: &P, boxed: &PathBox, pair: Pair) -> Option<u64>
    requires ready { IsBox (P.means.question problem.now) boxed.now }
    requires held { IsHeld (P.means.question problem.now) (λ c. true) boxed.now pair }
    requires stands { slice_index_or boxed.now.stands (slice_index (P.means.question problem.now).of pair.item) false ≡ true }
    ensures more { Leaves (P.means.question problem.now) boxed.now result pair }
    ensures other { IfSome result (λ n. (a : ℕ) × (a ≢ pair.value) × (has (slice_index boxed.now.masks pair.item) a ≡ true)) }
    ensures value { has (slice_index boxed.now.masks pair.item) pair.value ≡ true }
{
    let place = pair.item as usize;
    if without(*boxed.masks.get(place), pair.value) == 0 {
        return None;
    }
    *boxed.columns.prices.get(place)
}

/// The least that one of the pairs has left, beside what was spent. None: no solution leaves one of them.
fn least_left<P: Paths<S>, S>(
    problem: &P,
    boxed: &PathBox,
    names: &[u16],
    group: Option<u16>,
    spent: &[u64],
    pairs: &[Pair],
) -> Option<u64>
    requires ready { IsBox (P.means.question problem.now) boxed.now }
    requires stand { AllStand (P.means.question problem.now) (in_group names.now group) boxed.now }
    requires spent { length spent.now ≡ (P.means.question problem.now).count }
    requires held { All (IsHeld (P.means.question problem.now) (in_group names.now group) boxed.now) pairs.now }
    ensures { All (LeavesAt (P.means.question problem.now) (in_group names.now group) boxed.now spent.now result) pairs.now }
{
    let components = problem.components();
    let mut least: Option<u64> = None;
    for pair in pairs {
        if let Some(price) = price_of(problem, boxed, *pair) {
            let component = components[pair.item as usize] as usize;
            let left = price.saturating_sub(spent[component]);
            least = match least {
                None => Some(left),
                Some(other) => Some(left.min(other)),
            };
        }
    }
    least
}

/// So much more, or the most that there is.
fn add_up(spent: u64, amount: u64) -> u64
    ensures more { result ≡ min (spent + amount) (2 ^ 64 - 1) }
    ensures kept { spent ≤ result }
{
    spent.saturating_add(amount)
}

/// Takes the amount from the component of each pair, once where pairs of one component stand side by side.
fn spend(components: &[u16], pairs: &[Pair], amount: u64, spending: &mut Spending)
    requires places { All (λ p. p.item < length components.now) pairs.now }
    requires spent { All (λ c. c < length spending.old.spent) components.now }
    requires named { length spending.old.named ≡ length spending.old.spent }
    ensures more { All (λ p. min (slice_index spending.old.spent (slice_index components.now p.item) + amount) (2 ^ 64 - 1)
        ≤ slice_index spending.new.spent (slice_index components.now p.item)) pairs.now }
    ensures kept { (c : ℕ) → slice_index spending.old.spent c ≤ slice_index spending.new.spent c }
    ensures spent { length spending.new.spent ≡ length spending.old.spent }
    ensures named { length spending.new.named ≡ length spending.old.named }
{
    let mut last: Option<u16> = None;
    for pair in pairs {
        let component = components[pair.item as usize];
        if last != Some(component) {
            let at = component as usize;
            let more = add_up(*spending.spent.get(at), amount);
            spending.spent.set(at, more);
            let times = (*spending.named.get(at)).saturating_add(1);
            spending.named.set(at, times);
        }
        last = Some(component);
    }
}

/// Whether the pairs are of the group, and the least paths have them.
pub(crate) fn is_held<P: Paths<S>, S>(
    problem: &P,
    boxed: &PathBox,
    names: &[u16],
    group: Option<u16>,
    pairs: &[Pair],
) -> bool
    requires ready { IsBox (P.means.question problem.now) boxed.now }
    requires names { length names.now ≡ (P.means.question problem.now).count }
    ensures { result ≡ true → All (IsHeld (P.means.question problem.now) (in_group names.now group) boxed.now) pairs.now }
{
    let components = problem.components();
    for pair in pairs {
        let place = pair.item as usize;
        if place >= components.len() || *boxed.columns.values.get(place) != pair.value {
            return false;
        }
        if !is_in_group(names, group, components[place]) {
            return false;
        }
    }
    true
}

/// The pairs of the cut at a place, if the least paths of the group have them.
pub(crate) fn held_cut<'a, P: Paths<S>, S>(
    problem: &P,
    boxed: &PathBox,
    names: &[u16],
    group: Option<u16>,
    cuts: &'a Store,
    at: usize,
) -> Option<&'a [Pair]>
    requires ready { IsBox (P.means.question problem.now) boxed.now }
    requires names { length names.now ≡ (P.means.question problem.now).count }
    requires cuts { All (IsCut (P.means.question problem.now)) cuts.now }
    ensures held { IfSome result (λ cut. All (IsHeld (P.means.question problem.now) (in_group names.now group) boxed.now) cut.now) }
    ensures cut { IfSome result (λ cut. IsCut (P.means.question problem.now) cut.now) }
{
    if at >= cuts.len() {
        return None;
    }
    let cut = cuts.get(at);
    if is_held(problem, boxed, names, group, cut) {
        Some(cut)
    } else {
        None
    }
}

/// Spends for each cut that the least paths of the group hold. None comes only where no solution costs less than the limit; else
/// this is what each costs at least.
pub(crate) fn spend_all<P: Paths<S>, S>(
    problem: &P,
    work: &mut Work,
    group: Option<u16>,
    base: u64,
    limit: u64,
) -> Option<u64>
    requires work { IsWork (P.means.question problem.now) work.old }
    requires stand { AllStand (P.means.question problem.now) (in_group work.old.names group) work.old.boxed }
    requires base { base ≡ cost_in (P.means.question problem.now).count (in_group work.old.names group) work.old.boxed.columns.costs }
    requires less { base < limit }
    ensures work { IsWork (P.means.question problem.now) work.new }
    ensures kept { KeepsBox work.old work.new }
    ensures none { IsNone result → CostsAtLeast (P.means.question problem.now) (in_group work.old.names group) work.old.boxed.masks limit }
    ensures some { IfSome result (λ total. (total < limit) × (base ≤ total)
        × EachPays (P.means.question problem.now) (in_group work.old.names group) work.old.boxed.masks work.old.boxed.columns.costs
        work.new.spending.spent (total - base)) }
{
    work.spending.clear(work.focus.members.as_slice());
    let mut total = base;
    for at in 0..work.focus.cuts.len() {
        let names = work.names.as_slice();
        let place = *work.focus.cuts.get(at) as usize;
        if let Some(cut) = held_cut(problem, &work.boxed, names, group, &work.cuts, place) {
            let spent = work.spending.spent.as_slice();
            let amount = least_left(problem, &work.boxed, names, group, spent, cut)?;
            if amount >= limit - total {
                return None;
            }
            total += amount;
            spend(problem.components(), cut, amount, &mut work.spending);
        }
    }
    Some(total)
}
