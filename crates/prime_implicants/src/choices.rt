//! Partial values that falsify some clause, chosen literal by literal.

ghost use Rattle.std.specs.Prelude.{◌≡◌, ℕ, Bool, true, ◌+◌, ◌<◌, ◌≤◌, length, OnOk, IfOk, IfSome, MatchOption, None, filter, replicate, slice_index_or};
ghost use Rattle.std.specs.List.{list_all};
ghost use Rattle.std.specs.BTreeSet.{btree_set_len};
ghost use Rattle.prime_implicants.specs.Partial.{IsWithin, Partial};
ghost use Rattle.prime_implicants.specs.DenseClauses.{all_unfalsified, is_wide, is_zero};
ghost use Rattle.prime_implicants.specs.Found.{AreAdded, AreMany, AreOrdered, IsChoiceBehind, IsChoiceFrom, IsFoundable, Key, all_keys, key_of};

use crate::dense_clause::{DenseClause, are_named_unfalsified, are_unfalsified, next_named};
use crate::found::Found;
use crate::minimal::add_minimal;
use std::alloc::{AllocError, Global};
use std::collections::BTreeSet;

/// All minimal partial values that make a row false, or None where more than `most` turned up.
pub fn all_minimal(
    alloc: Global,
    sizes: &[u8],
    rows: &[DenseClause],
    most: usize,
) -> Result<Option<Found>, AllocError>
    requires { list_all (is_wide (length sizes.now)) rows.now ≡ true }
    ensures sound { IfOk result (λ o. IfSome o (λ f. (t : Key → Bool) → ((p : Partial)
        → IsFoundable sizes.now rows.now p → t (key_of p) ≡ true) → all_keys t f.keys ≡ true)) }
    ensures every { IfOk result (λ o. IfSome o (λ f. (p : Partial)
        → IsFoundable sizes.now rows.now p → (t : Key → Bool) → all_keys t f.keys ≡ true
        → t (key_of p) ≡ true)) }
    ensures more { IfOk result (λ o. MatchOption o (AreMany sizes.now rows.now most) (λ f.
        Unit {0})) }
    ensures few { IfOk result (λ o. IfSome o (λ f. btree_set_len f ≤ most)) }
    ensures ordered { IfOk result (λ o. IfSome o (λ f. AreOrdered f.keys)) }
{
    let mut found = BTreeSet::new(alloc);
    for row in rows {
        if found.len() > most {
            return Ok(None);
        }
        choose_row(alloc, sizes, rows, row, &mut found, most)?;
    }
    if found.len() > most {
        return Ok(None);
    }
    Ok(Some(found))
}

// Adds the minimal ones that make the row false and no more.
fn choose_row(
    alloc: Global,
    sizes: &[u8],
    rows: &[DenseClause],
    row: &DenseClause,
    found: &mut Found,
    most: usize,
) -> Result<(), AllocError>
    requires { length row.now ≡ length sizes.now }
    ensures { OnOk result (AreAdded sizes.now rows.now most (IsChoiceFrom 0 row.now)
        found.old.keys found.new.keys) }
{
    let mut partial = nothing(alloc, sizes.len())?;
    if !are_unfalsified(partial.as_slice(), rows) {
        add_minimal(alloc, rows, partial.as_slice(), found)?;
        return Ok(());
    }
    choose(
        alloc,
        sizes,
        rows,
        row,
        0,
        partial.as_mut_slice(),
        found,
        most,
    )?;
    Ok(())
}

fn nothing(alloc: Global, n: usize) -> Result<Vec<Option<u8>>, AllocError>
    ensures { IfOk result (λ q. q.items ≡ replicate n None) }
{
    vec![in alloc; None; n]
}

// Adds the minimal ones that have the values of `partial` and from `at` on make the row false and no more.
#[cycle(choosing)]
fn choose(
    alloc: Global,
    sizes: &[u8],
    rows: &[DenseClause],
    row: &DenseClause,
    at: usize,
    partial: &mut [Option<u8>],
    found: &mut Found,
    most: usize,
) -> Result<(), AllocError>
    requires at { at ≤ length partial.old }
    requires within { IsWithin sizes.now partial.old }
    requires wide { length row.now ≡ length partial.old }
    requires free { (i : ℕ) → at ≤ i → i < length partial.old →
        slice_index_or partial.old i None ≡ None }
    requires unfalsified { all_unfalsified partial.old rows.now ≡ true }
    ensures same { OnOk result (partial.new ≡ partial.old) }
    ensures adds { OnOk result (AreAdded sizes.now rows.now most (IsChoiceBehind at row.now
        partial.old) found.old.keys found.new.keys) }
{
    let x = next_named(row, at);
    if x == partial.len() {
        return Ok(());
    }
    for v in 0..sizes[x] {
        if !row.get(x).has(v) && found.len() <= most {
            partial[x] = Some(v);
            choose_after(alloc, sizes, rows, row, x, partial, found, most)?;
            partial[x] = None;
        }
    }
    Ok(())
}

// The same once the subject `x` has its value, with which only rows that name it may have become false.
#[cycle(choosing)]
fn choose_after(
    alloc: Global,
    sizes: &[u8],
    rows: &[DenseClause],
    row: &DenseClause,
    x: usize,
    partial: &mut [Option<u8>],
    found: &mut Found,
    most: usize,
) -> Result<(), AllocError>
    requires subject { x < length partial.old }
    requires within { IsWithin sizes.now partial.old }
    requires wide { length row.now ≡ length partial.old }
    requires free { (i : ℕ) → x + 1 ≤ i → i < length partial.old →
        slice_index_or partial.old i None ≡ None }
    requires others { all_unfalsified partial.old (filter (is_zero x) rows.now) ≡ true }
    ensures same { OnOk result (partial.new ≡ partial.old) }
    ensures adds { OnOk result (AreAdded sizes.now rows.now most (IsChoiceBehind (x + 1) row.now
        partial.old) found.old.keys found.new.keys) }
{
    if !are_named_unfalsified(partial, rows, x) {
        add_minimal(alloc, rows, partial, found)?;
        return Ok(());
    }
    choose(alloc, sizes, rows, row, x + 1, partial, found, most)?;
    Ok(())
}
