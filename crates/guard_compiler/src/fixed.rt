//! Clauses once a subject has a value.

ghost use Rattle.std.specs.Prelude.{◌≡◌, ◌<◌, ℕ, List, IfOk, length, slice_set};
ghost use Rattle.clause_form.specs.Clauses.{AreClauses, all_met};

use cca_base::List;
use clause_form::{Clauses, given};
use std::alloc::{AllocError, Global};

/// What the clauses say of the other subjects once one has a value. The error is out of memory.
pub fn with_value(
    alloc: Global,
    clauses: Clauses,
    subject: u16,
    value: u8,
) -> Result<Clauses, AllocError>
    requires clauses { AreClauses clauses }
    requires subject { subject < length clauses.sizes }
    ensures clauses { IfOk result AreClauses }
    ensures sizes { IfOk result (λ r. r.sizes ≡ clauses.sizes) }
    ensures met { IfOk result (λ r. (xs : List ℕ) → length xs ≡ length clauses.sizes
        → all_met xs r.clauses ≡ all_met (slice_set xs subject value) clauses.clauses) }
{
    let Clauses { sizes, clauses } = clauses;
    let others = given(alloc, clauses.as_slice(), subject, value)?;
    Ok(Clauses {
        sizes,
        clauses: List::of(others),
    })
}
