//! All resolvents on a subject: what the clauses say of it for some of its values.

ghost use Rattle.std.specs.Prelude.{◌≡◌, ℕ, Bool, true, ◌<◌, ◌&&◌, ◌||◌, IfOk, OnOk, Some, length, slice_index, slice_set};
ghost use Rattle.std.specs.List.{list_all};
ghost use Rattle.prime_implicants.specs.Partial.{Partial, IsWithin};
ghost use Rattle.prime_implicants.specs.DenseClauses.{Sets, all_unfalsified, row_unfalsified, fix_row, is_in, is_sized, is_wide, is_zero, union_rows};
ghost use Rattle.clause_form.specs.Clauses.{any_below};

use crate::dense_clause::{DenseClause, is_always, never, union};
use crate::dense_clauses::insert_minimal;
use cca_base::ValueSet;
use clause_form::Sizes;
use std::alloc::{AllocError, Global};

/// The rows once a subject has a value.
fn condition(
    alloc: Global,
    rows: &[DenseClause],
    x: usize,
    v: u8,
) -> Result<Vec<DenseClause>, AllocError>
    requires { list_all (is_in x) rows.now ≡ true }
    ensures unfalsified { IfOk result (λ r. (q : Partial) → list_all (is_sized q) rows.now ≡ true
        → all_unfalsified q r.items ≡ all_unfalsified (slice_set q x (Some v)) rows.now) }
    ensures same { IfOk result (λ r. (p : Sets → Bool)
        → list_all (λ row. p (fix_row x row)) rows.now ≡ true → list_all p r.items ≡ true) }
{
    let mut out = Vec::new(alloc);
    for row in rows {
        push_fixed(alloc, row, x, v, &mut out)?;
    }
    Ok(out)
}

// Adds a row, once the subject has a value, to `out`.
fn push_fixed(
    alloc: Global,
    row: &DenseClause,
    x: usize,
    v: u8,
    out: &mut Vec<DenseClause>,
) -> Result<(), AllocError>
    requires { x < length row.now }
    ensures unfalsified { OnOk result ((q : Partial) → is_sized q row.now ≡ true
        → all_unfalsified q out.new.items
        ≡ (all_unfalsified q out.old.items && row_unfalsified (slice_set q x (Some v)) row.now)) }
    ensures same { OnOk result ((p : Sets → Bool) → list_all p out.old.items ≡ true
        → p (fix_row x row.now) ≡ true → list_all p out.new.items ≡ true) }
{
    if row.get(x).has(v) {
        return Ok(());
    }
    let mut shorter = row.copy(alloc)?;
    shorter.set(x, ValueSet::empty());
    out.push(shorter)?;
    Ok(())
}

/// What the rows of the one or those of the other say.
fn resolve_on(
    alloc: Global,
    sizes: &Sizes,
    left: &[DenseClause],
    right: &[DenseClause],
) -> Result<Vec<DenseClause>, AllocError>
    requires left { list_all (is_wide (length sizes.now)) left.now ≡ true }
    requires right { list_all (is_wide (length sizes.now)) right.now ≡ true }
    ensures unfalsified { IfOk result (λ r. (q : Partial) → IsWithin sizes.now q
        → all_unfalsified q r.items ≡ (all_unfalsified q left.now || all_unfalsified q right.now)) }
    ensures same { IfOk result (λ r. (p : Sets → Bool)
        → list_all (λ row. list_all (λ other. p (union_rows row other)) right.now) left.now ≡ true
        → list_all p r.items ≡ true) }
{
    let mut out = Vec::new(alloc);
    for row in left {
        join_row(alloc, sizes, row, right, &mut out)?;
    }
    Ok(out)
}

// Adds to `out` what the row or all others say.
fn join_row(
    alloc: Global,
    sizes: &Sizes,
    row: &DenseClause,
    others: &[DenseClause],
    out: &mut Vec<DenseClause>,
) -> Result<(), AllocError>
    requires wide { is_wide (length sizes.now) row.now ≡ true }
    requires others { list_all (is_wide (length sizes.now)) others.now ≡ true }
    requires out { list_all (is_wide (length sizes.now)) out.old.items ≡ true }
    ensures unfalsified { OnOk result ((q : Partial) → IsWithin sizes.now q
        → all_unfalsified q out.new.items ≡ (all_unfalsified q out.old.items
        && (row_unfalsified q row.now || all_unfalsified q others.now))) }
    ensures same { OnOk result ((p : Sets → Bool) → list_all p out.old.items ≡ true
        → list_all (λ other. p (union_rows row.now other)) others.now ≡ true
        → list_all p out.new.items ≡ true) }
{
    for other in others {
        join_one(alloc, sizes, row, other, out)?;
    }
    Ok(())
}

// Adds to `out` what one of the two rows says.
fn join_one(
    alloc: Global,
    sizes: &Sizes,
    a: &DenseClause,
    b: &DenseClause,
    out: &mut Vec<DenseClause>,
) -> Result<(), AllocError>
    requires a { is_wide (length sizes.now) a.now ≡ true }
    requires b { is_wide (length sizes.now) b.now ≡ true }
    requires out { list_all (is_wide (length sizes.now)) out.old.items ≡ true }
    ensures unfalsified { OnOk result ((q : Partial) → IsWithin sizes.now q
        → all_unfalsified q out.new.items ≡ (all_unfalsified q out.old.items
        && (row_unfalsified q a.now || row_unfalsified q b.now))) }
    ensures same { OnOk result ((p : Sets → Bool) → list_all p out.old.items ≡ true
        → p (union_rows a.now b.now) ≡ true → list_all p out.new.items ≡ true) }
{
    let both = union(alloc, a, b)?;
    if is_always(sizes, &both) {
        return Ok(());
    }
    insert_minimal(out, both)?;
    Ok(())
}

/// What the rows say of the other subjects: with some value of `x` all are true.
pub fn gather(
    alloc: Global,
    sizes: &Sizes,
    rows: &[DenseClause],
    x: usize,
) -> Result<Vec<DenseClause>, AllocError>
    requires subject { x < length sizes.now }
    requires wide { list_all (is_wide (length sizes.now)) rows.now ≡ true }
    ensures wide { IfOk result (λ r. list_all (is_wide (length sizes.now)) r.items ≡ true) }
    ensures zero { IfOk result (λ r. (y : ℕ)
        → list_all (λ row. is_zero y (fix_row x row)) rows.now ≡ true
        → list_all (is_zero y) r.items ≡ true) }
    ensures unfalsified { IfOk result (λ r. (q : Partial) → IsWithin sizes.now q
        → all_unfalsified q r.items ≡ any_below (slice_index sizes.now x) (λ v.
        all_unfalsified (slice_set q x (Some v)) rows.now)) }
{
    let mut out = Vec::new(alloc);
    out.push(never(alloc, sizes.len())?)?;
    for v in 0..sizes.get(x) {
        let fixed = condition(alloc, rows, x, v)?;
        out = resolve_on(alloc, sizes, out.as_slice(), fixed.as_slice())?;
    }
    Ok(out)
}
