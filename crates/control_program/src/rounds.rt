//! Which part of a choice is taken, and what follows the end of a round.

ghost use Rattle.std.specs.Prelude.{map};
ghost use Rattle.std.specs.List.{AllZip};
ghost use Rattle.cca_base.specs.declared.formula.Formula.{Formula};
ghost use Rattle.consistency.specs.Spaces.{IsWorldSpace};
ghost use Rattle.control_program.specs.Places.{IsOfKind, marked};
ghost use Rattle.control_program.specs.Questions.{IsDenied, node_question};
ghost use Rattle.control_program.specs.Courses.{StandsIn, TakesIn, RoundAt, EndsRound};
ghost use Rattle.control_program.specs.declared.nodes.Kind.{Kind};

use crate::asking::{Asking, takes_first};
use crate::marks::clear;
use crate::nodes::{Mark, Node, node_at, rounds_of};
use cca_base::List;
use consistency::WorldSpace;

/// Marks which part a choice takes. The answer is the place of that part.
pub(crate) fn choose(
    asking: &Asking,
    marks: &mut List<Mark>,
    at: usize,
    space: &mut WorldSpace,
) -> usize
    requires stands { StandsIn asking.now marks.old at }
    requires denied { AllZip (IsDenied asking.now.model.now) (map node_question asking.now.nodes.now)
        asking.now.denials.now }
    requires kind { (f : Formula) × IsOfKind asking.now.nodes.now at (Kind.Choose f) }
    requires space { IsWorldSpace asking.now.worlds.now space.old }
    ensures takes { TakesIn asking.now at marks.old result marks.new }
    ensures space { IsWorldSpace asking.now.worlds.now space.new }
{
    let next = at + 1;
    if takes_first(asking, at, *marks.get(at), space) {
        marks.set(at, Mark::First);
        return next;
    }
    marks.set(at, Mark::Second);
    next + node_at(asking.nodes, next).size
}

/// Behind the end of a round: whether it was the last. If not, the next begins in the next turn, with the marks of the
/// start.
pub(crate) fn end_round(nodes: &[Node], marks: &mut List<Mark>, at: usize, number: u32) -> bool
    requires round { RoundAt (marked nodes.now marks.old) at number }
    requires kind { IsOfKind nodes.now at (Kind.Repeat number) }
    ensures { EndsRound (marked nodes.now marks.old) at number result
        (marked nodes.now marks.new) }
{
    let rounds = rounds_of(*marks.get(at));
    if rounds <= 1 {
        return true;
    }
    let end = at + node_at(nodes, at).size;
    clear(nodes, marks, at + 1, end);
    marks.set(at, Mark::Rounds(rounds - 1));
    false
}
