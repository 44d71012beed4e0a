//! The backbone of worlds: the values that all of them have. Some world gives a candidate for each subject. For each
//! other value that unit propagation leaves the subject, a world with that value is asked for. If there is none, the
//! candidate is forced. Two worlds that differ on a subject show that it isn't forced, so each world that is found
//! settles others too. A second world, for which the search begins with other values, is asked for before all these
//! questions.

ghost use Rattle.std.specs.Prelude.{◌≤◌, ◌<◌, ◌≡◌, ◌≢◌, ◌+◌, ℕ, true, false, List, length};
ghost use Rattle.std.specs.Prelude.{slice_index};
ghost use Rattle.clause_form.specs.declared.clause.Clause.{Clause};
ghost use Rattle.clash_analysis.specs.declared.subjects.TheConstants.{SET_SUBJECTS};
ghost use Rattle.consistency.specs.Search.{AreVaried, EachWorld, IsBackbone};
ghost use Rattle.world_search.specs.Spaces.{IsSpace, base_in, world_in};
ghost use Rattle.world_search.specs.Worlds.{IsSolution};

use bounded_list::BoundedList;
use cca_base::{Pair, VarSet};
use clash_analysis::{SubjectSet, has_subject, no_subject, with_subject};
use world_search::{Answer, Problem, Space, has_value};

/// The subjects, and those at which the two worlds differ.
fn with_differing(subjects: &SubjectSet, one: &[u8], other: &[u8]) -> SubjectSet
    requires small { length one.now ≤ SET_SUBJECTS }
    requires full { length other.now ≡ length one.now }
    ensures { (clauses : List Clause) (base : List ℕ) → IsSolution clauses base one.now →
        IsSolution clauses base other.now → AreVaried clauses base subjects.now →
        AreVaried clauses base result }
{
    let mut varied = *subjects;
    for (at, value) in one.iter().enumerate() {
        if other[at] != *value {
            varied = with_subject(&varied, at as u16);
        }
    }
    varied
}

/// Subjects at which some world differs from this one. The search for it begins with other values wherever they are
/// left.
fn differing(problem: &Problem, space: &mut Space, values: &[u8]) -> SubjectSet
    requires space { IsSpace problem.now space.old }
    requires world { IsSolution problem.now.clauses (base_in space.old) values.now }
    ensures space { IsSpace problem.now space.new }
    ensures base { base_in space.new ≡ base_in space.old }
    ensures varied { AreVaried problem.now.clauses (base_in space.old) result }
{
    problem.vary(space);
    match problem.ask(space, &[]) {
        Answer::Agrees => with_differing(&no_subject(), values, space.world()),
        Answer::Clash(_) => no_subject(),
    }
}

/// Whether some world has another value than this one at the subject. If so such a world is at hand from now on.
fn is_other_found(problem: &Problem, space: &mut Space, subject: usize, value: u8) -> bool
    requires space { IsSpace problem.now space.old }
    requires subject { subject < length problem.now.sizes }
    ensures space { IsSpace problem.now space.new }
    ensures base { base_in space.new ≡ base_in space.old }
    ensures world { result ≡ true →
        IsSolution problem.now.clauses (base_in space.old) (world_in space.new) }
    ensures other { result ≡ true → slice_index (world_in space.new) subject ≢ value }
    ensures none { result ≡ false →
        EachWorld problem.now.clauses (base_in space.old) (λ xs. slice_index xs subject ≡ value) }
{
    let left = problem.left(space, subject);
    for other in 0..problem.clauses().sizes.get(subject) {
        if other != value && has_value(left, other) {
            let pair = Pair {
                item: subject as u16,
                value: other,
            };
            match problem.ask(space, &[pair]) {
                Answer::Agrees => return true,
                Answer::Clash(_) => {}
            }
        }
    }
    false
}

/// Writes the values of some world, where there is one.
pub fn put_first(problem: &Problem, space: &mut Space, values: &mut [u8])
    requires space { IsSpace problem.now space.old }
    requires some { ((xs : List ℕ) → IsSolution problem.now.clauses (base_in space.old) xs → ⊥) → ⊥ }
    requires full { length values.old ≡ length problem.now.sizes }
    ensures space { IsSpace problem.now space.new }
    ensures base { base_in space.new ≡ base_in space.old }
    ensures world { IsSolution problem.now.clauses (base_in space.old) values.new }
{
    match problem.ask(space, &[]) {
        Answer::Agrees => {}
        Answer::Clash(_) => unreachable!(),
    }
    values.copy_from_slice(space.world());
}

/// Leaves in the list the variables of the set that have one value in all worlds, of which this is one. Variables are
/// the subjects behind the components. It takes no memory.
pub fn backbone(
    problem: &Problem,
    space: &mut Space,
    components: usize,
    vars: VarSet,
    world: &[u8],
    pairs: &mut BoundedList<Pair>,
)
    requires space { IsSpace problem.now space.old }
    requires front { components ≤ length problem.now.sizes }
    requires world { IsSolution problem.now.clauses (base_in space.old) world.now }
    requires room { length problem.now.sizes ≤ components + pairs.old.room }
    ensures space { IsSpace problem.now space.new }
    ensures base { base_in space.new ≡ base_in space.old }
    ensures pairs { IsBackbone problem.now.clauses (base_in space.old) components vars pairs.new.items }
    ensures room { pairs.new.room ≡ pairs.old.room }
{
    pairs.clear();
    let mut varied = differing(problem, space, world);
    for item in 0..(world.len() - components) as u16 {
        let subject = components + item as usize;
        if vars.has(item) && !has_subject(&varied, subject as u16) {
            let value = world[subject];
            if is_other_found(problem, space, subject, value) {
                varied = with_differing(&varied, world, space.world());
            } else {
                pairs.push(Pair { item, value });
            }
        }
    }
}
