//! Clauses conditioned on a subject's value.

ghost use Rattle.std.specs.Prelude.{◌≡◌, ◌||◌, ◌&&◌, ◌==◌, ◌<◌, ℕ, List, IfOk, OnOk, filter, length, not, slice_set};
ghost use Rattle.std.specs.List.{list_any};
ghost use Rattle.cca_base.specs.Prelude.{has};
ghost use Rattle.clause_form.specs.Clauses.{AllBelow, AllOthers, AreBelow, AreOthers, all_met, meets};

use crate::clause::Clause;
use cca_base::List;
use std::alloc::{AllocError, Global};

/// What the clauses say of the other subjects once one has a value. The error is out of memory.
pub fn given(
    alloc: Global,
    clauses: &[Clause],
    subject: u16,
    value: u8,
) -> Result<Vec<Clause>, AllocError>
    ensures met { IfOk result (λ r. (xs : List ℕ) → subject < length xs
        → all_met xs r.items ≡ all_met (slice_set xs subject value) clauses.now) }
    ensures gone { IfOk result (λ r. AllOthers subject r.items) }
    ensures below { IfOk result (λ r. (n : ℕ) → AllBelow n clauses.now → AllBelow n r.items) }
    ensures names { IfOk result (λ r. (x : ℕ) → AllOthers x clauses.now → AllOthers x r.items) }
{
    let mut others = Vec::new(alloc);
    for clause in clauses {
        push_rest(alloc, clause, subject, value, &mut others)?;
    }
    Ok(others)
}

/// Adds what the clause says of the other subjects, unless the value makes it true.
fn push_rest(
    alloc: Global,
    clause: &Clause,
    subject: u16,
    value: u8,
    clauses: &mut Vec<Clause>,
) -> Result<(), AllocError>
    ensures met { OnOk result ((xs : List ℕ) → subject < length xs
        → all_met xs clauses.new.items
        ≡ (all_met xs clauses.old.items && meets (slice_set xs subject value) clause.now)) }
    ensures gone { OnOk result (AllOthers subject clauses.old.items →
        AllOthers subject clauses.new.items) }
    ensures below { OnOk result ((n : ℕ) → AreBelow n clause.now.literals →
        AllBelow n clauses.old.items
        → AllBelow n clauses.new.items) }
    ensures names { OnOk result ((x : ℕ) → AreOthers x clause.now.literals →
        AllOthers x clauses.old.items
        → AllOthers x clauses.new.items) }
{
    if is_made_true(clause, subject, value) {
        return Ok(());
    }
    clauses.push(rest_of(alloc, clause, subject)?)?;
    Ok(())
}

/// Whether a literal of the subject has the value.
fn is_made_true(clause: &Clause, subject: u16, value: u8) -> bool
    ensures { result ≡ list_any (λ literal.
        literal.subject == subject && has literal.values value) clause.now.literals }
{
    clause.literals.as_slice().iter().any(|literal| literal.subject == subject
        && literal.values.has(value))
}

/// The clause without the subject's literals.
fn rest_of(alloc: Global, clause: &Clause, subject: u16) -> Result<Clause, AllocError>
    ensures { IfOk result (λ r. r.literals ≡ filter (λ literal.
        not (literal.subject == subject)) clause.now.literals) }
{
    let mut literals = List::new(alloc);
    for literal in clause.literals.as_slice() {
        if literal.subject != subject {
            literals.push(*literal)?;
        }
    }
    Ok(Clause { literals })
}
