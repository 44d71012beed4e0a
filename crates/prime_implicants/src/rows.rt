//! Clauses as dense rows of value sets.

ghost use Rattle.std.specs.Prelude.{◌≡◌, ℕ, true, ◌≤◌, ◌<◌, ◌||◌, All, IfOk, OnOk, length, nat_le, slice_index, take};
ghost use Rattle.cca_base.specs.Prelude.{has};
ghost use Rattle.cca_base.specs.declared.limits.TheConstants.{MAX_ROWS};
ghost use Rattle.clause_form.specs.Clauses.{AreBelow, AreClauses, is_met, is_true, meets};
ghost use Rattle.prime_implicants.specs.Partial.{Values, given};
ghost use Rattle.prime_implicants.specs.DenseClauses.{AreDense, row_unfalsified, is_wide, is_zero};

use crate::dense_clause::{DenseClause, never};
use crate::dense_clauses::add_all;
use clause_form::{Clause, Clauses, Literal};
use std::alloc::{AllocError, Global};

/// The rows of the clauses.
pub fn rows_of(alloc: Global, clauses: &Clauses) -> Result<Vec<DenseClause>, AllocError>
    requires { AreClauses clauses.now }
    ensures { IfOk result (λ r. AreDense clauses.now r.items) }
{
    let mut rows = Vec::new(alloc);
    for clause in clauses.clauses.as_slice() {
        rows.push(row_of(alloc, clauses.sizes.len(), clause)?)?;
    }
    Ok(rows)
}

/// The rows of the clauses, without those that say no more than another.
pub fn least_rows_of(alloc: Global, clauses: &Clauses) -> Result<Vec<DenseClause>, AllocError>
    requires { AreClauses clauses.now }
    ensures { IfOk result (λ r. AreDense clauses.now r.items) }
{
    let all = rows_of(alloc, clauses)?;
    let mut least = Vec::new(alloc);
    add_all(alloc, clauses.sizes.len(), &mut least, all.as_slice())?;
    Ok(least)
}

// The row of a clause over `n` subjects.
fn row_of(alloc: Global, n: usize, clause: &Clause) -> Result<DenseClause, AllocError>
    requires { AreBelow n clause.now.literals }
    ensures wide { IfOk result (λ r. is_wide n r ≡ true) }
    ensures unfalsified { IfOk result (λ r. (xs : Values) → length xs ≡ n
        → row_unfalsified (given xs) r ≡ meets xs clause.now) }
    ensures zero { IfOk result (λ r. (y : ℕ) → MAX_ROWS ≤ y → is_zero y r ≡ true) }
{
    let mut row = never(alloc, n)?;
    for literal in clause.literals.as_slice() {
        or_literal(&mut row, literal);
    }
    Ok(row)
}

// Lets the row be true with the literal too.
fn or_literal(row: &mut DenseClause, literal: &Literal)
    requires { literal.now.subject < length row.old }
    ensures wide { length row.new ≡ length row.old }
    ensures unfalsified { (xs : Values) → length xs ≡ length row.old
        → row_unfalsified (given xs) row.new
        ≡ (row_unfalsified (given xs) row.old || is_true xs literal.now) }
    ensures zero { (y : ℕ) → MAX_ROWS ≤ y → is_zero y row.old ≡ true → is_zero y row.new ≡ true }
{
    let subject = literal.subject as usize;
    let both = row.get(subject).union(literal.values);
    row.set(subject, both);
}
