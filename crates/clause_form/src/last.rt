//! A literal that comes last in the only clause, put there in place.

ghost use Rattle.std.specs.Prelude.{◌≡◌, ◌==◌, ◌∷◌, [], ◌||◌, ◌<◌, ℕ, List, false, length, map, IfOk, IfSome};
ghost use Rattle.clause_form.specs.Clauses.{AllBelow, AllOthers, all_met, is_true};

use crate::clause::{Clause, Literal};
use crate::sizes::Sizes;
use crate::subsumption::is_always_met;
use std::alloc::AllocError;

/// Whether each literal is of an earlier subject, where they are in the order of subjects.
fn is_behind(literals: &[Literal], subject: u16) -> bool {
    match literals {
        [.., last] => last.subject < subject,
        [] => true,
    }
}

/// The literal that is all of `more`, where it comes last in the only clause and isn't always true.
pub(crate) fn last_literal(sizes: &Sizes, clauses: &[Clause], more: &[Clause]) -> Option<Literal>
    requires of_more { AllBelow (length sizes.now) more.now }
    ensures alone { IfSome result (λ _. length clauses.now ≡ 1) }
    ensures all { IfSome result (λ l. map (λ c. c.literals) more.now ≡ (l ∷ []) ∷ []) }
{
    let (one, other) = match (clauses, more) {
        ([one], [other]) => (one.literals.as_slice(), other.literals.as_slice()),
        _ => return None,
    };
    match other {
        [literal] => {
            if is_behind(one, literal.subject) && !is_always_met(sizes, other) {
                Some(*literal)
            } else {
                None
            }
        }
        _ => None,
    }
}

/// The only clause with one more literal.
pub(crate) fn lengthened(
    mut clauses: Vec<Clause>,
    literal: Literal,
) -> Result<Vec<Clause>, AllocError>
    requires { length clauses.items ≡ 1 }
    ensures met { IfOk result (λ r.
        (xs : List ℕ) → all_met xs r.items ≡ (all_met xs clauses.items || is_true xs literal)) }
    ensures below { IfOk result (λ r.
        (n : ℕ) → literal.subject < n → AllBelow n clauses.items → AllBelow n r.items) }
    ensures names { IfOk result (λ r.
        (x : ℕ) → (literal.subject == x) ≡ false → AllOthers x clauses.items →
        AllOthers x r.items) }
{
    let clause = &mut clauses[0];
    clause.literals.push(literal)?;
    Ok(clauses)
}
