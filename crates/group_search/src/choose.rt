//! Where to split a box: at a pair of a cut that its least paths hold.

ghost use Rattle.std.specs.Prelude.{◌≡◌, ◌<◌, ◌≤◌, ◌-◌, All, IfSome, IsNone, true, length};
ghost use Rattle.group_search.specs.Bounds.{AllStand, EachPays, IsHeld, IsOpen, LeavesCostAtLeast};
ghost use Rattle.group_search.specs.Columns.{IsBox};
ghost use Rattle.group_search.specs.Places.{IsPlace};
ghost use Rattle.group_search.specs.Questions.{CostsAtLeast, IsCut, cost_in, in_group};
ghost use Rattle.group_search.specs.Works.{HasRoom, IsWork};

use crate::path_box::PathBox;
use crate::question::Paths;
use crate::spending::{Spending, held_cut, price_of};
use crate::work::Work;
use cca_base::Pair;

/// A pair to split at.
#[derive(Clone, Copy, Debug)]
pub struct Choice {
    pub pair: Pair,
    /// How many pairs of its cut can be left below the limit.
    pub open: u32,
    /// How many cuts name its component.
    pub named: u32,
}

/// Whether the first choice is the better one: of a cut with fewer open pairs, or of a component that more cuts name.
fn is_better(first: Choice, second: Choice) -> bool {
    first.open < second.open || first.open == second.open && first.named > second.named
}

/// The choice at the pair, if it can be left below the limit. None comes only where each solution that leaves it costs the limit.
fn open_choice<P: Paths<S>, S>(
    problem: &P,
    boxed: &PathBox,
    spending: &Spending,
    names: &[u16],
    group: Option<u16>,
    pair: Pair,
    total: u64,
    limit: u64,
) -> Option<Choice>
    requires ready { IsBox (P.means.question problem.now) boxed.now }
    requires stand { AllStand (P.means.question problem.now) (in_group names.now group) boxed.now }
    requires room { HasRoom (P.means.question problem.now) spending.now }
    requires held { IsHeld (P.means.question problem.now) (in_group names.now group) boxed.now pair }
    requires base { cost_in (P.means.question problem.now).count (in_group names.now group) boxed.now.columns.costs ≤ total }
    requires pays { EachPays (P.means.question problem.now) (in_group names.now group) boxed.now.masks boxed.now.columns.costs
        spending.now.spent (total - cost_in (P.means.question problem.now).count (in_group names.now group) boxed.now.columns.costs) }
    ensures some { IfSome result (λ x. (x.pair ≡ pair) × IsOpen (P.means.question problem.now) (in_group names.now group) boxed.now.masks pair) }
    ensures none { IsNone result → LeavesCostAtLeast (P.means.question problem.now) (in_group names.now group) boxed.now.masks limit pair }
{
    let price = price_of(problem, boxed, pair)?;
    let component = problem.components()[pair.item as usize] as usize;
    let left = price.saturating_sub(*spending.spent.get(component));
    if total.saturating_add(left) >= limit {
        return None;
    }
    Some(Choice {
        pair,
        open: 1,
        named: *spending.named.get(component),
    })
}

/// The pair of the cut that most cuts name, of those that can be left below the limit. None comes only where each solution costs the
/// limit.
pub(crate) fn choice_in<P: Paths<S>, S>(
    problem: &P,
    boxed: &PathBox,
    spending: &Spending,
    names: &[u16],
    group: Option<u16>,
    cut: &[Pair],
    total: u64,
    limit: u64,
) -> Option<Choice>
    requires ready { IsBox (P.means.question problem.now) boxed.now }
    requires stand { AllStand (P.means.question problem.now) (in_group names.now group) boxed.now }
    requires room { HasRoom (P.means.question problem.now) spending.now }
    requires cut { IsCut (P.means.question problem.now) cut.now }
    requires held { All (IsHeld (P.means.question problem.now) (in_group names.now group) boxed.now) cut.now }
    requires base { cost_in (P.means.question problem.now).count (in_group names.now group) boxed.now.columns.costs ≤ total }
    requires pays { EachPays (P.means.question problem.now) (in_group names.now group) boxed.now.masks boxed.now.columns.costs
        spending.now.spent (total - cost_in (P.means.question problem.now).count (in_group names.now group) boxed.now.columns.costs) }
    ensures some { IfSome result (λ x. IsOpen (P.means.question problem.now) (in_group names.now group) boxed.now.masks x.pair) }
    ensures none { IsNone result → CostsAtLeast (P.means.question problem.now) (in_group names.now group) boxed.now.masks limit }
{
    let mut best: Option<Choice> = None;
    let mut open: u32 = 0;
    for pair in cut {
        if let Some(choice) = open_choice(
            problem, boxed, spending, names, group, *pair, total, limit,
        ) {
            open = open.saturating_add(1);
            best = match best {
                Some(other) if other.named >= choice.named => Some(other),
                _ => Some(choice),
            };
        }
    }
    let best = best?;
    Some(Choice { open, ..best })
}

/// Where a box is split.
#[derive(Clone, Copy, Debug)]
pub enum Place {
    /// No cut that is known is held.
    Nowhere,
    /// No solution costs less than the limit.
    Closed,
    At(Pair),
}

/// The best choice of all cuts that the least paths of the group hold.
pub(crate) fn choose<P: Paths<S>, S>(
    problem: &P,
    work: &Work,
    group: Option<u16>,
    total: u64,
    limit: u64,
) -> Place
    requires work { IsWork (P.means.question problem.now) work.now }
    requires stand { AllStand (P.means.question problem.now) (in_group work.now.names group) work.now.boxed }
    requires base { cost_in (P.means.question problem.now).count (in_group work.now.names group) work.now.boxed.columns.costs ≤ total }
    requires pays { EachPays (P.means.question problem.now) (in_group work.now.names group) work.now.boxed.masks work.now.boxed.columns.costs
        work.now.spending.spent (total - cost_in (P.means.question problem.now).count (in_group work.now.names group) work.now.boxed.columns.costs) }
    ensures { IsPlace (P.means.question problem.now) (in_group work.now.names group) work.now.boxed.masks limit result }
{
    let names = work.names.as_slice();
    let mut best: Option<Choice> = None;
    for at in 0..work.focus.cuts.len() {
        let place = *work.focus.cuts.get(at) as usize;
        if let Some(cut) = held_cut(problem, &work.boxed, names, group, &work.cuts, place) {
            let Some(choice) = choice_in(
                problem,
                &work.boxed,
                &work.spending,
                names,
                group,
                cut,
                total,
                limit,
            ) else {
                return Place::Closed;
            };
            best = match best {
                Some(other) if !is_better(choice, other) => Some(other),
                _ => Some(choice),
            };
        }
    }
    match best {
        None => Place::Nowhere,
        Some(choice) => Place::At(choice.pair),
    }
}
