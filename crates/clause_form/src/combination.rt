//! Clauses of two parts combined: all of both, or each of the one with each of the other, without subsumed ones.

ghost use Rattle.std.specs.Prelude.{◌≡◌, ℕ, List, ◌&&◌, ◌||◌, length, IfOk, OnOk, IsTrue};
ghost use Rattle.clause_form.specs.Clauses.{AreValues, is_met, all_met, AreBelow, AllBelow, AreOthers, AllOthers};
ghost use Rattle.clause_form.specs.Formulas.{combine};

use crate::clause::{Clause, Literal};
use crate::last::{last_literal, lengthened};
use crate::literals::disjoined;
use crate::sizes::Sizes;
use crate::subsumption::{is_always_met, subsumes};
use std::alloc::{AllocError, Global};

/// Whether one of the clauses subsumes this one.
fn is_absorbed(clauses: &[Clause], literals: &[Literal]) -> bool
    ensures { IsTrue result → (xs : List ℕ) → IsTrue (all_met xs clauses.now) →
        IsTrue (is_met xs literals.now) }
{
    for clause in clauses {
        if subsumes(clause.literals.as_slice(), literals) {
            return true;
        }
    }
    false
}

/// Whether this clause subsumes one of the others.
fn absorbs_some(literals: &[Literal], clauses: &[Clause]) -> bool {
    for clause in clauses {
        if subsumes(literals, clause.literals.as_slice()) {
            return true;
        }
    }
    false
}

/// The clauses that this one does not absorb.
fn without_absorbed(
    alloc: Global,
    clauses: Vec<Clause>,
    literals: &[Literal],
) -> Result<Vec<Clause>, AllocError>
    ensures met { IfOk result (λ r.
        (xs : List ℕ) → IsTrue (is_met xs literals.now) →
        all_met xs r.items ≡ all_met xs clauses.items) }
    ensures fewer { IfOk result (λ r.
        (xs : List ℕ) → IsTrue (all_met xs clauses.items) → IsTrue (all_met xs r.items)) }
    ensures below { IfOk result (λ r. (n : ℕ) → AllBelow n clauses.items → AllBelow n r.items) }
    ensures names { IfOk result (λ r. (x : ℕ) → AllOthers x clauses.items → AllOthers x r.items) }
{
    if !absorbs_some(literals, &clauses) {
        return Ok(clauses);
    }
    let mut kept = Vec::new(alloc);
    for clause in clauses {
        if !subsumes(literals, clause.literals.as_slice()) {
            kept.push(clause)?;
        }
    }
    Ok(kept)
}

/// The clauses with one more, without what is always met or absorbed.
pub(crate) fn with_clause(
    alloc: Global,
    sizes: &Sizes,
    clauses: Vec<Clause>,
    clause: Clause,
) -> Result<Vec<Clause>, AllocError>
    requires of_clause { AreBelow (length sizes.now) clause.literals }
    requires below { AllBelow (length sizes.now) clauses.items }
    ensures met { IfOk result (λ r.
        (xs : List ℕ) → AreValues sizes.now xs →
        all_met xs r.items ≡ (all_met xs clauses.items && is_met xs clause.literals)) }
    ensures below { IfOk result (λ r. AllBelow (length sizes.now) r.items) }
    ensures names { IfOk result (λ r.
        (x : ℕ) → AreOthers x clause.literals → AllOthers x clauses.items → AllOthers x r.items) }
{
    let literals = clause.literals.as_slice();
    if is_always_met(sizes, literals) || is_absorbed(&clauses, literals) {
        return Ok(clauses);
    }
    let mut kept = without_absorbed(alloc, clauses, literals)?;
    kept.push(clause)?;
    Ok(kept)
}

/// Adds each of the clauses, with what stands in the one.
fn add_row(
    alloc: Global,
    sizes: &Sizes,
    clauses: Vec<Clause>,
    one: &Clause,
    more: &[Clause],
) -> Result<Vec<Clause>, AllocError>
    requires of_one { AreBelow (length sizes.now) one.now.literals }
    requires of_more { AllBelow (length sizes.now) more.now }
    requires below { AllBelow (length sizes.now) clauses.items }
    ensures met { IfOk result (λ r. (xs : List ℕ) → AreValues sizes.now xs
        → all_met xs r.items ≡ (all_met xs clauses.items &&
        (is_met xs one.now.literals || all_met xs more.now))) }
    ensures below { IfOk result (λ r. AllBelow (length sizes.now) r.items) }
    ensures names { IfOk result (λ r.
        (x : ℕ) → AreOthers x one.now.literals → AllOthers x more.now → AllOthers x clauses.items →
        AllOthers x r.items) }
{
    let mut all = clauses;
    for clause in more {
        let wider = disjoined(alloc, one, clause)?;
        all = with_clause(alloc, sizes, all, wider)?;
    }
    Ok(all)
}

/// The clauses, and more of them one by one.
fn with_all(
    alloc: Global,
    sizes: &Sizes,
    clauses: Vec<Clause>,
    more: Vec<Clause>,
) -> Result<Vec<Clause>, AllocError>
    requires below { AllBelow (length sizes.now) clauses.items }
    requires of_more { AllBelow (length sizes.now) more.items }
    ensures met { IfOk result (λ r. (xs : List ℕ) → AreValues sizes.now xs
        → all_met xs r.items ≡ (all_met xs clauses.items && all_met xs more.items)) }
    ensures below { IfOk result (λ r. AllBelow (length sizes.now) r.items) }
    ensures names { IfOk result (λ r.
        (x : ℕ) → AllOthers x clauses.items → AllOthers x more.items → AllOthers x r.items) }
{
    let mut all = clauses;
    for clause in more {
        all = with_clause(alloc, sizes, all, clause)?;
    }
    Ok(all)
}

/// Each of the clauses joined with each of the others.
fn distributed(
    alloc: Global,
    sizes: &Sizes,
    clauses: &[Clause],
    more: &[Clause],
) -> Result<Vec<Clause>, AllocError>
    requires below { AllBelow (length sizes.now) clauses.now }
    requires of_more { AllBelow (length sizes.now) more.now }
    ensures met { IfOk result (λ r. (xs : List ℕ) → AreValues sizes.now xs
        → all_met xs r.items ≡ (all_met xs clauses.now || all_met xs more.now)) }
    ensures below { IfOk result (λ r. AllBelow (length sizes.now) r.items) }
    ensures names { IfOk result (λ r.
        (x : ℕ) → AllOthers x clauses.now → AllOthers x more.now → AllOthers x r.items) }
{
    let mut out = Vec::new(alloc);
    for clause in clauses {
        out = add_row(alloc, sizes, out, clause, more)?;
    }
    Ok(out)
}

/// Clauses that are true where both parts are, or where one is, and that name nothing more. A literal alone goes into the only
/// clause where it comes last there. The error is out of memory.
pub fn combined(
    alloc: Global,
    sizes: &Sizes,
    all: bool,
    clauses: Vec<Clause>,
    more: Vec<Clause>,
) -> Result<Vec<Clause>, AllocError>
    requires below { AllBelow (length sizes.now) clauses.items }
    requires of_more { AllBelow (length sizes.now) more.items }
    ensures met { IfOk result (λ r.
        (xs : List ℕ) → AreValues sizes.now xs →
        all_met xs r.items ≡ combine all (all_met xs clauses.items) (all_met xs more.items)) }
    ensures below { IfOk result (λ r. AllBelow (length sizes.now) r.items) }
    ensures names { IfOk result (λ r.
        (x : ℕ) → AllOthers x clauses.items → AllOthers x more.items → AllOthers x r.items) }
{
    if all {
        return with_all(alloc, sizes, clauses, more);
    }
    match last_literal(sizes, &clauses, &more) {
        Some(literal) => lengthened(clauses, literal),
        None => distributed(alloc, sizes, &clauses, &more),
    }
}
