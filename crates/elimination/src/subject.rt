//! One subject alone projected away.

ghost use Rattle.std.specs.Prelude.{◌≡◌, ◌≤◌, ◌<◌, IfOk, length};
ghost use Rattle.cca_base.specs.declared.limits.TheConstants.{MAX_SUBJECTS};
ghost use Rattle.clause_form.specs.Clauses.{AreClauses};
ghost use Rattle.elimination.specs.Projection.{IsWithout};

use crate::removal::without;
use cca_base::List;
use clause_form::{Clauses, copies};
use std::alloc::{AllocError, Global};

/// Clauses that are true exactly where some value of this subject makes all of the given ones true. The error
/// is out of memory.
pub fn project_subject(
    alloc: Global,
    clauses: &Clauses,
    subject: u16,
) -> Result<Clauses, AllocError>
    requires clauses { AreClauses clauses.now }
    requires few { length clauses.now.sizes ≤ MAX_SUBJECTS }
    requires subject { subject < length clauses.now.sizes }
    ensures clauses { IfOk result AreClauses }
    ensures sizes { IfOk result (λ r. r.sizes ≡ clauses.now.sizes) }
    ensures exact { IfOk result (IsWithout clauses.now subject) }
{
    let all = copies(alloc, clauses.clauses.as_slice())?;
    let rest = without(alloc, &clauses.sizes, all, subject)?;
    let sizes = clauses.sizes.copy(alloc)?;
    Ok(Clauses {
        sizes,
        clauses: List::of(rest),
    })
}
