//! Pure subjects: one value of theirs makes all clauses true that name them, so consensus adds nothing.

ghost use Rattle.std.specs.Prelude.{◌≡◌, ◌||◌, slice_index};
ghost use Rattle.cca_base.specs.Prelude.{has};
ghost use Rattle.prime_implicants.specs.DenseClauses.{have_value, is_pure, is_zero};

use crate::dense_clause::DenseClause;

/// Whether some value of the subject is in the set of every row that names it.
pub fn is_pure(size: u8, rows: &[DenseClause], x: usize) -> bool
    ensures { result ≡ is_pure size x rows.now }
{
    for v in 0..size {
        if have_value(rows, x, v) {
            return true;
        }
    }
    false
}

// Whether the value is in the set of every row that names the subject.
fn have_value(rows: &[DenseClause], x: usize, v: u8) -> bool
    ensures { result ≡ have_value x v rows.now }
{
    rows.iter().all(|row| has_value(row, x, v))
}

fn has_value(row: &DenseClause, x: usize, v: u8) -> bool
    ensures { result ≡ (is_zero x row.now || has (slice_index row.now x) v) }
{
    x >= row.len() || row.get(x).is_empty() || row.get(x).has(v)
}
