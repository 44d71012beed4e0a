//! Clauses parted into those that name a subject and the others.

ghost use Rattle.std.specs.Prelude.{◌≡◌, ◌==◌, IfOk, filter, not};
ghost use Rattle.clause_form.specs.Clauses.{names_one};

use crate::clause::Clause;
use std::alloc::{AllocError, Global};

/// The same clauses. The error is out of memory.
pub fn copies(alloc: Global, clauses: &[Clause]) -> Result<Vec<Clause>, AllocError>
    ensures { IfOk result (λ r. r.items ≡ clauses.now) }
{
    let mut all = Vec::new(alloc);
    for clause in clauses {
        all.push(clause.copy(alloc)?)?;
    }
    Ok(all)
}

/// The clauses that name the subject. The error is out of memory.
pub fn naming(alloc: Global, clauses: &[Clause], subject: u16) -> Result<Vec<Clause>, AllocError>
    ensures { IfOk result (λ r. r.items ≡ filter (names_one (λ u. u == subject)) clauses.now) }
{
    let mut with = Vec::new(alloc);
    for clause in clauses {
        if clause.names(subject) {
            with.push(clause.copy(alloc)?)?;
        }
    }
    Ok(with)
}

/// Keeps the clauses that don't name the subject.
pub fn keep_others(clauses: &mut Vec<Clause>, subject: u16)
    ensures { clauses.new.items
        ≡ filter (λ clause. not (names_one (λ u. u == subject) clause)) clauses.old.items }
{
    clauses.retain(|clause| !clause.names(subject));
}
