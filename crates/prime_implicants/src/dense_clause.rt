//! A clause as one value set for each subject, and its truth under partial values.

ghost use Rattle.std.specs.Prelude.{◌≡◌, ℕ, true, false, ◌<◌, ◌≤◌, IfOk, length, replicate};
ghost use Rattle.cca_base.specs.declared.limits.TheConstants.{MAX_CHOICES};
ghost use Rattle.prime_implicants.specs.DenseClauses.{all_unfalsified, row_unfalsified, fits, is_always, is_full, is_stronger, is_zero, named_unfalsified, union_rows};

use cca_base::{List, ValueSet};
use clause_form::Sizes;
use std::alloc::{AllocError, Global};

/// A clause as the set of values, for each subject, with which the subject makes it true.
/// The empty set stands for a subject that the clause doesn't name.
pub type DenseClause = List<ValueSet>;

/// The row that is never true.
pub fn never(alloc: Global, n: usize) -> Result<DenseClause, AllocError>
    ensures { IfOk result (λ r. r ≡ replicate n 0) }
{
    let mut row = List::new(alloc);
    for _ in 0..n {
        row.push(ValueSet::empty())?;
    }
    Ok(row)
}

/// Whether the first row says more than the second, or the same.
pub fn subsumes(a: &DenseClause, b: &DenseClause) -> bool
    ensures { result ≡ is_stronger a.now b.now }
{
    a.as_slice()
        .iter()
        .zip(b.as_slice())
        .all(|(s, t)| s.is_within(*t))
}

/// The row that is true where one of the two is.
pub fn union(alloc: Global, a: &DenseClause, b: &DenseClause) -> Result<DenseClause, AllocError>
    requires { length a.now ≡ length b.now }
    ensures { IfOk result (λ r. r ≡ union_rows a.now b.now) }
{
    let mut both = List::new(alloc);
    for i in 0..a.len() {
        both.push(a.get(i).union(*b.get(i)))?;
    }
    Ok(both)
}

/// Whether some set has all values of its subject.
pub fn is_always(sizes: &Sizes, row: &DenseClause) -> bool
    ensures { result ≡ is_always sizes.now row.now }
{
    sizes
        .as_slice()
        .iter()
        .zip(row.as_slice())
        .any(|(n, s)| is_full(*n, *s))
}

fn is_full(n: u8, set: ValueSet) -> bool
    requires { n ≤ MAX_CHOICES }
    ensures { result ≡ is_full n set }
{
    !set.is_empty() && ValueSet::full(n).is_within(set)
}

/// Whether each row may still be true.
pub fn are_unfalsified(partial: &[Option<u8>], rows: &[DenseClause]) -> bool
    ensures { result ≡ all_unfalsified partial.now rows.now }
{
    rows.iter().all(|row| is_unfalsified(partial, row))
}

/// Whether each row that names the subject may still be true.
pub fn are_named_unfalsified(partial: &[Option<u8>], rows: &[DenseClause], x: usize) -> bool
    ensures { result ≡ named_unfalsified x partial.now rows.now }
{
    rows.iter()
        .all(|row| is_unnamed(row, x) || is_unfalsified(partial, row))
}

/// Whether the subject can't make the row true.
pub fn is_unnamed(row: &DenseClause, x: usize) -> bool
    ensures { result ≡ is_zero x row.now }
{
    x >= row.len() || row.get(x).is_empty()
}

/// The first subject from `at` on that the row names, or how many subjects there are.
pub fn next_named(row: &DenseClause, at: usize) -> usize
    requires { at ≤ length row.now }
    ensures from { at ≤ result }
    ensures within { result ≤ length row.now }
    ensures named { result < length row.now → is_zero result row.now ≡ false }
    ensures others { (i : ℕ) → at ≤ i → i < result → is_zero i row.now ≡ true }
{
    for i in at..row.len() {
        if !row.get(i).is_empty() {
            return i;
        }
    }
    row.len()
}

/// Whether the row may still be true.
pub fn is_unfalsified(partial: &[Option<u8>], row: &DenseClause) -> bool
    ensures { result ≡ row_unfalsified partial.now row.now }
{
    partial
        .iter()
        .zip(row.as_slice())
        .any(|(o, s)| fits(*o, *s))
}

fn fits(value: Option<u8>, set: ValueSet) -> bool
    ensures { result ≡ fits value set }
{
    match value {
        None => !set.is_empty(),
        Some(v) => set.has(v),
    }
}
