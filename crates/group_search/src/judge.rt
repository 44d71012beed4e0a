//! What becomes of a box: it is dropped by its bound, or split where its least paths hold a cut, or these are asked for.

ghost use Rattle.std.specs.Prelude.{◌≡◌, ◌<◌, ◌≤◌, ◌-◌, ℕ, All, Contains, true, false, length, slice_index_or};
ghost use Rattle.group_search.specs.Bounds.{AllStand, EachPays};
ghost use Rattle.group_search.specs.Questions.{cost_in, in_group};
ghost use Rattle.group_search.specs.Searches.{IsJudged};
ghost use Rattle.group_search.specs.Works.{AreMembers, IsWork, KeepsPaths};

use crate::choose::{Place, choice_in, choose};
use crate::focus::{cost_of, write_cuts};
use crate::question::Paths;
use crate::spending::spend_all;
use crate::work::Work;
use cca_base::Pair;

/// What becomes of a box.
#[derive(Clone, Copy, Debug)]
pub enum Verdict {
    /// No solution there costs less than the limit.
    Dropped,
    /// It is split at a pair.
    Split(Pair),
    /// Its least paths are the best so far.
    Found,
}

/// Whether each of the components has a path.
pub(crate) fn all_stand(members: &[u16], stands: &[bool]) -> bool
    requires { All (λ c. c < length stands.now) members.now }
    ensures yes { result ≡ true → All (λ c. slice_index_or stands.now c false ≡ true) members.now }
    ensures no { result ≡ false → (c : ℕ) × Contains members.now c × (slice_index_or stands.now c false ≡ false) }
{
    for c in members {
        if !stands[*c as usize] {
            return false;
        }
    }
    true
}

/// What becomes of a box whose least paths hold no cut that is known: they are asked for, and a clash of them is the next cut.
fn ask_paths<P: Paths<S>, S>(
    problem: &P,
    space: &mut S,
    work: &mut Work,
    group: Option<u16>,
    total: u64,
    limit: u64,
) -> Verdict
    requires space { P.means.is_space problem.now space.old }
    requires work { IsWork (P.means.question problem.now) work.old }
    requires stand { AllStand (P.means.question problem.now) (in_group work.old.names group) work.old.boxed }
    requires base { cost_in (P.means.question problem.now).count (in_group work.old.names group) work.old.boxed.columns.costs ≤ total }
    requires less { total < limit }
    requires pays { EachPays (P.means.question problem.now) (in_group work.old.names group) work.old.boxed.masks work.old.boxed.columns.costs
        work.old.spending.spent (total - cost_in (P.means.question problem.now).count (in_group work.old.names group) work.old.boxed.columns.costs) }
    ensures space { P.means.is_space problem.now space.new }
    ensures work { IsWork (P.means.question problem.now) work.new }
    ensures kept { KeepsPaths work.old work.new }
    ensures judged { IsJudged (P.means.question problem.now) work.old.names group limit work.old.boxed.masks
        work.old.boxed.columns.values work.old.boxed.columns.costs result }
{
    let columns = &work.boxed.columns;
    let (values, costs) = (columns.values.as_slice(), columns.costs.as_slice());
    let names = work.names.as_slice();
    if !problem.clash(space, values, costs, names, group, &mut work.cut) {
        return Verdict::Found;
    }
    let pairs = work.cut.as_slice();
    let choice = choice_in(
        problem,
        &work.boxed,
        &work.spending,
        names,
        group,
        pairs,
        total,
        limit,
    );
    work.cuts.keep(pairs);
    let components = problem.components();
    write_cuts(names, group, components, &work.cuts, &mut work.focus.cuts);
    match choice {
        None => Verdict::Dropped,
        Some(choice) => Verdict::Split(choice.pair),
    }
}

/// What becomes of the box, where the group's components alone count.
pub(crate) fn judge<P: Paths<S>, S>(
    problem: &P,
    space: &mut S,
    work: &mut Work,
    group: Option<u16>,
    limit: u64,
) -> Verdict
    requires space { P.means.is_space problem.now space.old }
    requires work { IsWork (P.means.question problem.now) work.old }
    requires members { AreMembers (P.means.question problem.now) work.old.names group work.old.focus.members.items }
    ensures space { P.means.is_space problem.now space.new }
    ensures work { IsWork (P.means.question problem.now) work.new }
    ensures kept { KeepsPaths work.old work.new }
    ensures judged { IsJudged (P.means.question problem.now) work.old.names group limit work.old.boxed.masks
        work.old.boxed.columns.values work.old.boxed.columns.costs result }
{
    let members = work.focus.members.as_slice();
    if !all_stand(members, work.boxed.stands.as_slice()) {
        return Verdict::Dropped;
    }
    let base = cost_of(members, work.boxed.columns.costs.as_slice());
    if base >= limit {
        return Verdict::Dropped;
    }
    let Some(total) = spend_all(problem, work, group, base, limit) else {
        return Verdict::Dropped;
    };
    match choose(problem, work, group, total, limit) {
        Place::Closed => Verdict::Dropped,
        Place::At(pair) => Verdict::Split(pair),
        Place::Nowhere => ask_paths(problem, space, work, group, total, limit),
    }
}
