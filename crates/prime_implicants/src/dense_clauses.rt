//! Dense clauses without subsumed ones.

ghost use Rattle.std.specs.Prelude.{◌≡◌, Bool, true, ◌&&◌, ◌∷◌, ℕ, IfOk, OnOk, filter, length, not};
ghost use Rattle.std.specs.List.{list_all, list_any};
ghost use Rattle.prime_implicants.specs.Partial.{Partial};
ghost use Rattle.prime_implicants.specs.DenseClauses.{Sets, all_unfalsified, row_unfalsified, is_in, is_stronger, is_wide, is_zero, mentions};

use crate::dense_clause::{DenseClause, subsumes};
use std::alloc::{AllocError, Global};

/// Adds a row, unless an old one says as much, and drops those that say no more.
pub fn insert_minimal(rows: &mut Vec<DenseClause>, row: DenseClause) -> Result<(), AllocError>
    requires { list_all (is_wide (length row)) rows.old.items ≡ true }
    ensures unfalsified { OnOk result ((q : Partial)
        → all_unfalsified q rows.new.items
        ≡ (all_unfalsified q rows.old.items && row_unfalsified q row)) }
    ensures same { OnOk result ((p : Sets → Bool) → list_all p (row ∷ rows.old.items) ≡ true
        → list_all p rows.new.items ≡ true) }
{
    if is_known(rows.as_slice(), &row) {
        return Ok(());
    }
    drop_weaker(rows, &row);
    rows.push(row)?;
    Ok(())
}

fn is_known(rows: &[DenseClause], row: &DenseClause) -> bool
    ensures { result ≡ list_any (λ old. is_stronger old row.now) rows.now }
{
    rows.iter().any(|old| subsumes(old, row))
}

fn drop_weaker(rows: &mut Vec<DenseClause>, row: &DenseClause)
    ensures { rows.new.items ≡ filter (λ old. not (is_stronger row.now old)) rows.old.items }
{
    rows.retain(|old| !subsumes(row, old));
}

/// Adds each of the rows.
pub fn add_all(
    alloc: Global,
    n: usize,
    rows: &mut Vec<DenseClause>,
    more: &[DenseClause],
) -> Result<(), AllocError>
    requires rows { list_all (is_wide n) rows.old.items ≡ true }
    requires more { list_all (is_wide n) more.now ≡ true }
    ensures unfalsified { OnOk result ((q : Partial)
        → all_unfalsified q rows.new.items
        ≡ (all_unfalsified q rows.old.items && all_unfalsified q more.now)) }
    ensures same { OnOk result ((p : Sets → Bool) → list_all p rows.old.items ≡ true
        → list_all p more.now ≡ true → list_all p rows.new.items ≡ true) }
{
    for row in more {
        insert_minimal(rows, row.copy(alloc)?)?;
    }
    Ok(())
}

/// The rows that name the subject.
pub fn naming(alloc: Global, rows: &[DenseClause], x: usize) -> Result<Vec<DenseClause>, AllocError>
    requires { list_all (is_in x) rows.now ≡ true }
    ensures { IfOk result (λ r. r.items ≡ filter (mentions x) rows.now) }
{
    let mut out = Vec::new(alloc);
    for row in rows {
        if !row.get(x).is_empty() {
            out.push(row.copy(alloc)?)?;
        }
    }
    Ok(out)
}
