//! Clauses completed by consensus, subject by subject, so that each prime implicant falsifies one of them.

ghost use Rattle.std.specs.Prelude.{◌≡◌, ℕ, true, ◌<◌, ◌&&◌, length, OnOk, Some, slice_set, slice_index, filter};
ghost use Rattle.std.specs.List.{list_all};
ghost use Rattle.prime_implicants.specs.Partial.{IsWithin, Partial};
ghost use Rattle.prime_implicants.specs.DenseClauses.{all_unfalsified, is_wide, is_zero, mentions};
ghost use Rattle.clause_form.specs.Clauses.{any_below};
ghost use Rattle.prime_implicants.specs.Found.{AreComplete};

use crate::dense_clause::DenseClause;
use crate::dense_clauses::{add_all, naming};
use crate::gathering::gather;
use crate::purity::is_pure;
use clause_form::Sizes;
use std::alloc::{AllocError, Global};

/// Adds rows that follow from the others until each blocked cube makes one false.
pub fn complete(alloc: Global, sizes: &Sizes, rows: &mut Vec<DenseClause>) -> Result<(), AllocError>
    requires wide { list_all (is_wide (length sizes.now)) rows.old.items ≡ true }
    ensures wide { OnOk result (list_all (is_wide (length sizes.now)) rows.new.items ≡ true) }
    ensures zero { OnOk result ((y : ℕ) → list_all (is_zero y) rows.old.items ≡ true
        → list_all (is_zero y) rows.new.items ≡ true) }
    ensures complete { OnOk result (AreComplete sizes.now rows.old.items rows.new.items) }
{
    for x in 0..sizes.len() {
        saturate(alloc, sizes, rows, x)?;
    }
    Ok(())
}

// Adds what the rows that name a subject say of the others.
fn saturate(
    alloc: Global,
    sizes: &Sizes,
    rows: &mut Vec<DenseClause>,
    x: usize,
) -> Result<(), AllocError>
    requires subject { x < length sizes.now }
    requires wide { list_all (is_wide (length sizes.now)) rows.old.items ≡ true }
    ensures wide { OnOk result (list_all (is_wide (length sizes.now)) rows.new.items ≡ true) }
    ensures zero { OnOk result ((y : ℕ) → list_all (is_zero y) rows.old.items ≡ true
        → list_all (is_zero y) rows.new.items ≡ true) }
    ensures unfalsified { OnOk result ((q : Partial) → IsWithin sizes.now q
        → all_unfalsified q rows.new.items
        ≡ (all_unfalsified q rows.old.items && any_below (slice_index sizes.now x) (λ v.
        all_unfalsified (slice_set q x (Some v)) (filter (mentions x) rows.old.items)))) }
{
    if is_pure(sizes.get(x), rows.as_slice(), x) {
        return Ok(());
    }
    let with = naming(alloc, rows.as_slice(), x)?;
    let more = gather(alloc, sizes, with.as_slice(), x)?;
    add_all(alloc, sizes.len(), rows, more.as_slice())?;
    Ok(())
}
