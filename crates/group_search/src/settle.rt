//! Settling: while the paths of all components have a clash, its groups are joined, and the group is searched.

ghost use Rattle.std.specs.Prelude.{◌≡◌, ◌⊎◌, ◌<◌, [], All, Contains, List, length, Some, not, true, false};
ghost use Rattle.cca_base.specs.declared.cube.Pair.{Pair};
ghost use Rattle.group_search.specs.Columns.{ArePaths};
ghost use Rattle.group_search.specs.Floors.{AreJoined, HasFloors, IsFloored, IsMet, IsRound, IsSettled, every};
ghost use Rattle.group_search.specs.Questions.{CostsAtLeast, IsInside, IsWhole, cost_in, in_group};
ghost use Rattle.group_search.specs.Rooms.{IsShaped, KeepsRooms};
ghost use Rattle.group_search.specs.Works.{IsWork};

use crate::columns::Chosen;
use crate::groups::{group_cost, join, join_all, take_paths};
use crate::marks::{clear, mark, unmark};
use crate::question::Paths;
use crate::rising::find_rising;
use crate::work::Work;

/// Searches the group, and takes over what is found. False comes only where no solution costs less than the limit. Of all
/// components they are a solution.
pub(crate) fn search_group<P: Paths<S>, S>(
    problem: &P,
    space: &mut S,
    work: &mut Work,
    chosen: &mut Chosen,
    group: u16,
    limit: u64,
) -> bool
    requires space { P.means.is_space problem.now space.old }
    requires work { IsWork (P.means.question problem.now) work.old }
    requires floors { HasFloors (P.means.question problem.now) work.old.boxed.masks work.old.names chosen.old }
    requires inside { IsInside (P.means.question problem.now) (λ c. not (in_group work.old.names (Some group) c)) work.old.boxed.masks chosen.old.values }
    requires less { cost_in (P.means.question problem.now).count every chosen.old.costs < limit }
    ensures space { P.means.is_space problem.now space.new }
    ensures work { IsWork (P.means.question problem.now) work.new }
    ensures names { work.new.names ≡ work.old.names }
    ensures masks { work.new.boxed.masks ≡ work.old.boxed.masks }
    ensures shape { IsShaped (P.means.question problem.now) chosen.new }
    ensures found { result ≡ true →
        IsFloored (P.means.question problem.now) work.old.boxed.masks work.old.names limit chosen.new }
    ensures whole { result ≡ true → IsWhole (P.means.question problem.now) work.old.names (Some group) →
        (P.means.question problem.now).solves chosen.new.values chosen.new.costs }
    ensures none { result ≡ false → CostsAtLeast (P.means.question problem.now) every work.old.boxed.masks limit }
{
    let floor = group_cost(work.names.as_slice(), Some(group), chosen.costs.as_slice());
    let total = group_cost(work.names.as_slice(), None, chosen.costs.as_slice());
    let below = limit - (total - floor);
    if !find_rising(problem, space, work, Some(group), floor, below) {
        return false;
    }
    let components = problem.components();
    take_paths(
        work.names.as_slice(),
        Some(group),
        components,
        chosen,
        &work.best.found,
    );
    true
}

/// What a round comes to.
#[derive(Clone, Copy, Debug)]
pub enum Round {
    /// The paths are a solution.
    Settled,
    /// No solution costs less than the limit.
    Nothing,
    /// There are other paths.
    Again,
}

/// Keeps the cut that was found, makes one group of its components, and marks them. False: it has no pair, so that there is no solution.
fn take_cut(components: &[u16], work: &mut Work) -> bool
    requires places { All (λ p. p.item < length components.now) work.old.cut.items }
    requires components { All (λ c. c < length work.old.names) components.now }
    requires marks { length work.old.marks ≡ length work.old.names }
    ensures joined { AreJoined work.old.names work.new.names }
    ensures names { length work.new.names ≡ length work.old.names }
    ensures boxed { work.new.boxed ≡ work.old.boxed }
    ensures spending { work.new.spending ≡ work.old.spending }
    ensures rooms { KeepsRooms work.old work.new }
    ensures cuts { (k : List Pair) → Contains work.new.cuts k → Contains work.old.cuts k ⊎ (k ≡ work.old.cut.items) }
    ensures none { result ≡ false → work.old.cut.items ≡ [] }
{
    let pairs = work.cut.as_slice();
    if pairs.is_empty() {
        return false;
    }
    join(&mut work.names, components, pairs);
    mark(&mut work.marks, components, pairs);
    work.cuts.keep(pairs);
    true
}

/// Clashes of the paths, one after the other: the components of each are left out of the next question, and marked.
fn meet_clashes<P: Paths<S>, S>(
    problem: &P,
    space: &mut S,
    work: &mut Work,
    chosen: &Chosen,
) -> Round
    requires space { P.means.is_space problem.now space.old }
    requires work { IsWork (P.means.question problem.now) work.old }
    requires paths { ArePaths (P.means.question problem.now) every chosen.now.values chosen.now.costs }
    ensures space { P.means.is_space problem.now space.new }
    ensures work { IsWork (P.means.question problem.now) work.new }
    ensures joined { AreJoined work.old.names work.new.names }
    ensures boxed { work.new.boxed ≡ work.old.boxed }
    ensures met { IsMet (P.means.question problem.now) chosen.now result }
{
    let (values, costs) = (chosen.values.as_slice(), chosen.costs.as_slice());
    let components = problem.components();
    clear(&mut work.marks);
    let names = work.names.as_slice();
    if !problem.clash(space, values, costs, names, None, &mut work.cut) {
        return Round::Settled;
    }
    if !take_cut(components, work) {
        return Round::Nothing;
    }
    for _ in 0..work.names.len() {
        let asked = work.marks.as_slice();
        if !problem.clash(space, values, costs, asked, Some(0), &mut work.cut) {
            return Round::Again;
        }
        if !take_cut(components, work) {
            return Round::Nothing;
        }
    }
    Round::Again
}

/// Searches each group that has a marked component. False comes only where no solution costs less than the limit.
fn search_marked<P: Paths<S>, S>(
    problem: &P,
    space: &mut S,
    work: &mut Work,
    chosen: &mut Chosen,
    limit: u64,
) -> bool
    requires space { P.means.is_space problem.now space.old }
    requires work { IsWork (P.means.question problem.now) work.old }
    requires floored { IsFloored (P.means.question problem.now) work.old.boxed.masks work.old.names limit chosen.old }
    ensures space { P.means.is_space problem.now space.new }
    ensures work { IsWork (P.means.question problem.now) work.new }
    ensures names { work.new.names ≡ work.old.names }
    ensures masks { work.new.boxed.masks ≡ work.old.boxed.masks }
    ensures shape { IsShaped (P.means.question problem.now) chosen.new }
    ensures floored { result ≡ true →
        IsFloored (P.means.question problem.now) work.old.boxed.masks work.old.names limit chosen.new }
    ensures none { result ≡ false → CostsAtLeast (P.means.question problem.now) every work.old.boxed.masks limit }
{
    for c in 0..work.names.len() {
        if *work.marks.get(c) != 0 {
            let group = *work.names.get(c);
            unmark(&mut work.marks, work.names.as_slice(), group);
            if !search_group(problem, space, work, chosen, group, limit) {
                return false;
            }
        }
    }
    true
}

/// Asks whether the paths are a solution; where they are not, the groups of their clashes become one each, and are searched.
fn settle_once<P: Paths<S>, S>(
    problem: &P,
    space: &mut S,
    work: &mut Work,
    chosen: &mut Chosen,
    limit: u64,
) -> Round
    requires space { P.means.is_space problem.now space.old }
    requires work { IsWork (P.means.question problem.now) work.old }
    requires floored { IsFloored (P.means.question problem.now) work.old.boxed.masks work.old.names limit chosen.old }
    ensures space { P.means.is_space problem.now space.new }
    ensures work { IsWork (P.means.question problem.now) work.new }
    ensures joined { AreJoined work.old.names work.new.names }
    ensures masks { work.new.boxed.masks ≡ work.old.boxed.masks }
    ensures shape { IsShaped (P.means.question problem.now) chosen.new }
    ensures round { IsRound (P.means.question problem.now) work.old.boxed.masks work.new.names limit chosen.new result }
{
    match meet_clashes(problem, space, work, chosen) {
        Round::Settled => Round::Settled,
        Round::Nothing => Round::Nothing,
        Round::Again => {
            if search_marked(problem, space, work, chosen, limit) {
                Round::Again
            } else {
                Round::Nothing
            }
        }
    }
}

/// A least solution of the box, group by group, where it costs less than the limit; false: there is none. So many rounds join all
/// components that clashes join; behind them all components are one group.
pub(crate) fn settle<P: Paths<S>, S>(
    problem: &P,
    space: &mut S,
    work: &mut Work,
    chosen: &mut Chosen,
    limit: u64,
) -> bool
    requires space { P.means.is_space problem.now space.old }
    requires work { IsWork (P.means.question problem.now) work.old }
    requires floored { IsFloored (P.means.question problem.now) work.old.boxed.masks work.old.names limit chosen.old }
    ensures space { P.means.is_space problem.now space.new }
    ensures work { IsWork (P.means.question problem.now) work.new }
    ensures joined { AreJoined work.old.names work.new.names }
    ensures masks { work.new.boxed.masks ≡ work.old.boxed.masks }
    ensures shape { IsShaped (P.means.question problem.now) chosen.new }
    ensures some { result ≡ true →
        IsSettled (P.means.question problem.now) work.old.boxed.masks work.new.names limit chosen.new }
    ensures none { result ≡ false → CostsAtLeast (P.means.question problem.now) every work.old.boxed.masks limit }
{
    for _ in 0..2 * work.names.len() {
        match settle_once(problem, space, work, chosen, limit) {
            Round::Settled => return true,
            Round::Nothing => return false,
            Round::Again => {}
        }
    }
    join_all(&mut work.names);
    search_group(problem, space, work, chosen, 0, limit)
}
