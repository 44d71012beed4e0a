//! The clause that is true where one of two is, merged in the order of subjects.

ghost use Rattle.std.specs.Prelude.{◌≡◌, ◌∷◌, ◌++◌, [], ℕ, List, ◌<◌, ◌≤◌, ◌||◌, IfOk, OnOk, length};
ghost use Rattle.clause_form.specs.Clauses.{AreBelow, AreMerged, AreOthers, is_met};
ghost use Rattle.clause_form.specs.declared.clause.Literal.{Literal};

use crate::clause::{Clause, Literal};
use cca_base::List;
use std::alloc::{AllocError, Global};

/// The first place from `at` on whose literal isn't of an earlier subject.
pub(crate) fn skip(literals: &[Literal], at: usize, subject: u16) -> usize
    requires { at ≤ length literals.now }
    ensures above { at ≤ result }
    ensures inside { result ≤ length literals.now }
{
    let mut next = at;
    'passing: while next < literals.len() && literals[next].subject < subject {
        next += 1;
    }
    next
}

/// Adds the literals from one place to another.
fn push_between(
    literals: &[Literal],
    from: usize,
    to: usize,
    merged: &mut List<Literal>,
) -> Result<(), AllocError>
    requires order { from ≤ to }
    requires inside { to ≤ length literals.now }
    ensures merged { OnOk result ((others : List Literal) →
        AreMerged literals.now from others merged.old
        → AreMerged literals.now to others merged.new) }
    ensures below { OnOk result ((n : ℕ) → AreBelow n literals.now → AreBelow n merged.old →
        AreBelow n merged.new) }
    ensures names { OnOk result ((x : ℕ) → AreOthers x literals.now → AreOthers x merged.old →
        AreOthers x merged.new) }
{
    for at in from..to {
        merged.push(literals[at])?;
    }
    Ok(())
}

/// Adds the literal, as one with that at the place if this is of the same subject, and says which place comes next.
fn push_with(
    literals: &[Literal],
    at: usize,
    literal: Literal,
    merged: &mut List<Literal>,
) -> Result<usize, AllocError>
    requires { at ≤ length literals.now }
    ensures inside { IfOk result (λ next. next ≤ length literals.now) }
    ensures merged { IfOk result (λ next.
        (others : List Literal) → AreMerged literals.now at others merged.old
        → AreMerged literals.now next (others ++ literal ∷ []) merged.new) }
    ensures below { OnOk result ((n : ℕ) → literal.subject < n → AreBelow n merged.old →
        AreBelow n merged.new) }
    ensures names { OnOk result ((x : ℕ) → AreOthers x (literal ∷ []) → AreOthers x merged.old →
        AreOthers x merged.new) }
{
    if at < literals.len() && literals[at].subject == literal.subject {
        let values = literals[at].values.union(literal.values);
        merged.push(Literal {
            subject: literal.subject,
            values,
        })?;
        return Ok(at + 1);
    }
    merged.push(literal)?;
    Ok(at)
}

/// True where one of the two is. The error is out of memory.
pub(crate) fn disjoined(alloc: Global, a: &Clause, b: &Clause) -> Result<Clause, AllocError>
    ensures met { IfOk result (λ c.
        (xs : List ℕ) → is_met xs c.literals
        ≡ (is_met xs a.now.literals || is_met xs b.now.literals)) }
    ensures below { IfOk result (λ c.
        (n : ℕ) → AreBelow n a.now.literals → AreBelow n b.now.literals → AreBelow n c.literals) }
    ensures names { IfOk result (λ c.
        (x : ℕ) → AreOthers x a.now.literals → AreOthers x b.now.literals →
        AreOthers x c.literals) }
{
    let first = a.literals.as_slice();
    let mut literals = List::new(alloc);
    let mut at = 0;
    for literal in b.literals.as_slice() {
        let end = skip(first, at, literal.subject);
        push_between(first, at, end, &mut literals)?;
        at = push_with(first, end, *literal, &mut literals)?;
    }
    push_between(first, at, first.len(), &mut literals)?;
    Ok(Clause { literals })
}
