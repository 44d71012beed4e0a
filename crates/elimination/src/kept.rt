//! What is left over the subjects that are kept.

ghost use Rattle.std.specs.Prelude.{◌≡◌, ◌==◌, ◌&&◌, ◌≤◌, ℕ, List, IfOk, drop, length, not};
ghost use Rattle.std.specs.List.{list_any};
ghost use Rattle.clause_form.specs.Clauses.{AllBelow, all_met};
ghost use Rattle.elimination.specs.Projection.{has_empty};

use crate::removal::never;
use cca_base::List;
use clause_form::{Clause, Sizes};
use std::alloc::{AllocError, Global};

/// Whether one of the sizes is zero.
fn has_zero(sizes: &[u8]) -> bool
    ensures { result ≡ list_any (λ size. size == 0) sizes.now }
{
    sizes.iter().any(|size| *size == 0)
}

/// The clauses that are left, or one that is never true if a subject from `keep` on has no value.
pub(crate) fn kept_of(
    alloc: Global,
    sizes: &Sizes,
    keep: u16,
    clauses: Vec<Clause>,
) -> Result<List<Clause>, AllocError>
    requires keep { keep ≤ length sizes.now }
    requires below { AllBelow keep clauses.items }
    ensures met { IfOk result (λ kept.
        (xs : List ℕ) → all_met xs kept
        ≡ (not (has_empty sizes.now keep) && all_met xs clauses.items)) }
    ensures below { IfOk result (AllBelow keep) }
{
    if has_zero(&sizes.as_slice()[keep as usize..]) {
        Ok(List::of(never(alloc)?))
    } else {
        Ok(List::of(clauses))
    }
}
