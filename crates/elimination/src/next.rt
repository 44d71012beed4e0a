//! Which subject is projected away next.

ghost use Rattle.std.specs.Prelude.{◌≡◌, ◌⊎◌, All, IfOk, IfSome, MatchOption, length};
ghost use Rattle.clause_form.specs.Clauses.{AllBelow, AreBelow};
ghost use Rattle.elimination.specs.Projection.{AreAllDone, IsDone, IsLeft};

use crate::cost::Costs;
use clause_form::{Clause, Sizes};
use std::alloc::{AllocError, Global};

/// A subject from `keep` on that the clause names and that isn't marked, if there is one.
fn left_in(sizes: &Sizes, clause: &Clause, keep: u16, marks: &[bool]) -> Option<u16>
    requires marks { length marks.now ≡ length sizes.now }
    requires below { AreBelow (length sizes.now) clause.now.literals }
    ensures { MatchOption result (All (λ literal.
        IsDone keep marks.now literal.subject) clause.now.literals)
        (IsLeft sizes.now keep marks.now) }
{
    for literal in clause.literals.as_slice() {
        if literal.subject >= keep && !marks[usize::from(literal.subject)] {
            return Some(literal.subject);
        }
    }
    None
}

/// A subject from `keep` on that a clause names and that isn't marked, if there is one.
fn some_left(sizes: &Sizes, clauses: &[Clause], keep: u16, marks: &[bool]) -> Option<u16>
    requires marks { length marks.now ≡ length sizes.now }
    requires below { AllBelow (length sizes.now) clauses.now }
    ensures { MatchOption result (AreAllDone keep marks.now clauses.now)
        (IsLeft sizes.now keep marks.now) }
{
    for clause in clauses {
        if let Some(subject) = left_in(sizes, clause, keep, marks) {
            return Some(subject);
        }
    }
    None
}

/// The subject that costs least among those that are named and left, or the first one.
fn cheapest(sizes: &Sizes, keep: u16, marks: &[bool], first: u16, costs: &Costs) -> u16
    requires marks { length marks.now ≡ length sizes.now }
    requires first { IsLeft sizes.now keep marks.now first }
    ensures { IsLeft sizes.now keep marks.now result }
{
    let mut best = first;
    let mut least = u64::MAX;
    for at in usize::from(keep)..sizes.len().min(usize::from(u16::MAX)) {
        let subject = at as u16;
        if let Some(cost) = costs.cost(sizes.get(at), subject) {
            if !marks[at] && cost < least {
                best = subject;
                least = cost;
            }
        }
    }
    best
}

/// A subject from `keep` on that a clause names and that isn't marked; None exactly where there is none. It is the one that
/// costs least to project away, on which no claim rests. The error is out of memory.
pub(crate) fn next_subject(
    alloc: Global,
    sizes: &Sizes,
    clauses: &[Clause],
    keep: u16,
    marks: &[bool],
) -> Result<Option<u16>, AllocError>
    requires marks { length marks.now ≡ length sizes.now }
    requires below { AllBelow (length sizes.now) clauses.now }
    ensures { IfOk result (λ next.
        MatchOption next (AreAllDone keep marks.now clauses.now)
        (IsLeft sizes.now keep marks.now)) }
{
    match some_left(sizes, clauses, keep, marks) {
        Some(first) => {
            let costs = Costs::of(alloc, sizes, clauses)?;
            Ok(Some(cheapest(sizes, keep, marks, first, &costs)))
        }
        None => Ok(None),
    }
}
