//! Subjects projected away one by one, by resolution.

ghost use Rattle.std.specs.Prelude.{◌≡◌, ◌≤◌, IfOk, false, length, replicate, take};
ghost use Rattle.clause_form.specs.Clauses.{AreClauses};
ghost use Rattle.elimination.specs.Projection.{AreProjected, IsProjection};

use crate::kept::kept_of;
use crate::next::next_subject;
use crate::removal::without;
use clause_form::{Clause, Clauses, copies};
use std::alloc::{AllocError, Global};

/// Clauses over the subjects below `keep`, true exactly where some values of the other subjects make all of the given
/// ones true. The error is out of memory.
pub fn project(alloc: Global, clauses: &Clauses, keep: u16) -> Result<Clauses, AllocError>
    requires clauses { AreClauses clauses.now }
    requires keep { keep ≤ length clauses.now.sizes }
    ensures clauses { IfOk result AreClauses }
    ensures sizes { IfOk result (λ r. r.sizes ≡ take keep clauses.now.sizes) }
    ensures exact { IfOk result (IsProjection clauses.now keep) }
{
    let projected = project_each(alloc, clauses, keep)?;
    let sizes = clauses.sizes.first(alloc, keep as usize)?;
    let clauses = kept_of(alloc, &clauses.sizes, keep, projected)?;
    Ok(Clauses { sizes, clauses })
}

/// So many marks, none of which is set.
fn no_marks(alloc: Global, count: usize) -> Result<Vec<bool>, AllocError>
    ensures { IfOk result (λ marks. marks.items ≡ replicate count false) }
{
    vec![in alloc; false; count]
}

/// The clauses once each subject from `keep` on that they name is projected away, the cheapest first.
fn project_each(alloc: Global, clauses: &Clauses, keep: u16) -> Result<Vec<Clause>, AllocError>
    requires { AreClauses clauses.now }
    ensures { IfOk result (λ r.
        AreProjected clauses.now.sizes keep clauses.now.clauses r.items) }
{
    let sizes = &clauses.sizes;
    let all = copies(alloc, clauses.clauses.as_slice())?;
    let mut left = all;
    let mut marks = no_marks(alloc, sizes.len())?;
    'subjects: while let Some(subject) = next_subject(alloc, sizes, &left, keep, &marks)? {
        left = without(alloc, sizes, left, subject)?;
        marks[usize::from(subject)] = true;
    }
    Ok(left)
}
