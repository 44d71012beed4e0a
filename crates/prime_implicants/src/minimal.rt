//! Partial values kept only where they are minimal: no value can be left out.

ghost use Rattle.std.specs.Prelude.{◌≡◌, Bool, true, ◌||◌, length, OnOk};
ghost use Rattle.std.specs.List.{list_all};
ghost use Rattle.prime_implicants.specs.DenseClauses.{row_unfalsified};
ghost use Rattle.prime_implicants.specs.Found.{Key, all_below, all_keys, is_needed, key_of, names_all};

use crate::dense_clause::{DenseClause, is_unfalsified, is_unnamed};
use crate::found::{Found, add_key, make_key};
use std::alloc::{AllocError, Global};

/// Adds the values, if none of them can be left out.
pub fn add_minimal(
    alloc: Global,
    rows: &[DenseClause],
    partial: &[Option<u8>],
    found: &mut Found,
) -> Result<(), AllocError>
    ensures sound { OnOk result ((t : Key → Bool) → all_keys t found.old.keys ≡ true
        → (all_below (length partial.now) (is_needed rows.now partial.now) ≡ true →
        t (key_of partial.now) ≡ true)
        → all_keys t found.new.keys ≡ true) }
    ensures grown { OnOk result ((t : Key → Bool) → all_keys t found.new.keys ≡ true
        → all_keys t found.old.keys ≡ true) }
    ensures found { OnOk result (all_below (length partial.now) (is_needed rows.now partial.now)
        ≡ true
        → (t : Key → Bool) → all_keys t found.new.keys ≡ true → t (key_of partial.now) ≡ true) }
{
    if is_minimal(rows, partial) {
        add_key(found, make_key(alloc, partial)?)?;
    }
    Ok(())
}

// Whether no value can be left out.
fn is_minimal(rows: &[DenseClause], partial: &[Option<u8>]) -> bool
    ensures { result ≡ all_below (length partial.now) (is_needed rows.now partial.now) }
{
    name_all(rows, partial)
}

// Whether each row that is false names each subject that has a value.
fn name_all(rows: &[DenseClause], partial: &[Option<u8>]) -> bool
    ensures { result ≡ list_all (λ row.
        row_unfalsified partial.now row || names_all partial.now row) rows.now }
{
    rows.iter().all(|row| is_unfalsified(partial, row) || names_all(partial, row))
}

// Whether the row names each subject that has a value.
fn names_all(partial: &[Option<u8>], row: &DenseClause) -> bool
    ensures { result ≡ names_all partial.now row.now }
{
    for i in 0..partial.len() {
        if partial[i].is_some() && is_unnamed(row, i) {
            return false;
        }
    }
    true
}
