//! The search of a group by limits that rise from its floor (iterative deepening), so that boxes far above the least cost aren't asked for.

ghost use Rattle.std.specs.Prelude.{◌≡◌, ◌⊎◌, ◌<◌, ◌≤◌, false, true};
ghost use Rattle.group_search.specs.Questions.{CostsAtLeast, cost_in, in_group};
ghost use Rattle.group_search.specs.Searches.{IsFind};
ghost use Rattle.group_search.specs.Works.{IsWork};

use crate::find::find;
use crate::question::Paths;
use crate::work::Work;

/// The limit behind one that was too low: twice as far above the floor and one more, up to the last one.
fn next_limit(floor: u64, low: u64, limit: u64) -> u64
    requires floor { floor ≤ low }
    requires low { low < limit }
    ensures more { low < result }
    ensures within { result ≤ limit }
{
    limit.min(low.saturating_add(low - floor).saturating_add(1))
}

/// The same as `find`, by limits that rise.
pub(crate) fn find_rising<P: Paths<S>, S>(
    problem: &P,
    space: &mut S,
    work: &mut Work,
    group: Option<u16>,
    floor: u64,
    limit: u64,
) -> bool
    requires space { P.means.is_space problem.now space.old }
    requires work { IsWork (P.means.question problem.now) work.old }
    requires floor { floor < limit }
    ensures space { P.means.is_space problem.now space.new }
    ensures work { IsWork (P.means.question problem.now) work.new }
    ensures names { work.new.names ≡ work.old.names }
    ensures masks { work.new.boxed.masks ≡ work.old.boxed.masks }
    ensures find { result ≡ true →
        IsFind (P.means.question problem.now) work.old.names group work.old.boxed.masks work.new.best.found }
    ensures less { result ≡ true →
        cost_in (P.means.question problem.now).count (in_group work.old.names group) work.new.best.found.costs < limit }
    ensures least { result ≡ true →
        (cost_in (P.means.question problem.now).count (in_group work.old.names group) work.new.best.found.costs ≤ floor)
        ⊎ CostsAtLeast (P.means.question problem.now) (in_group work.old.names group) work.old.boxed.masks
        (cost_in (P.means.question problem.now).count (in_group work.old.names group) work.new.best.found.costs) }
    ensures none { result ≡ false →
        CostsAtLeast (P.means.question problem.now) (in_group work.old.names group) work.old.boxed.masks limit }
{
    let mut low = floor;
    'limits: loop {
        let next = next_limit(floor, low, limit);
        if find(problem, space, work, group, floor, next) {
            return true;
        }
        if next == limit {
            return false;
        }
        low = next;
    }
}
