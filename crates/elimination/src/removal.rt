//! One subject projected away: all resolvents on it, value by value.

ghost use Rattle.std.specs.Prelude.{◌≡◌, ℕ, List, false, ◌<◌, IfOk, length};
ghost use Rattle.clause_form.specs.Clauses.{AllBelow, AllOthers, all_met};
ghost use Rattle.elimination.specs.Projection.{AreResolvents};

use cca_base::List;
use clause_form::{Clause, Sizes, combined, given, keep_others, naming};
use std::alloc::{AllocError, Global};

/// The clause that is never true, alone.
pub(crate) fn never(alloc: Global) -> Result<Vec<Clause>, AllocError>
    ensures met { IfOk result (λ r. (xs : List ℕ) → all_met xs r.items ≡ false) }
    ensures below { IfOk result (λ r. (n : ℕ) → AllBelow n r.items) }
    ensures names { IfOk result (λ r. (x : ℕ) → AllOthers x r.items) }
{
    let mut clauses = Vec::new(alloc);
    clauses.push(Clause {
        literals: List::new(alloc),
    })?;
    Ok(clauses)
}

/// What the clauses say of the other subjects: with some value of this one all are true.
fn resolvents(
    alloc: Global,
    sizes: &Sizes,
    clauses: &[Clause],
    subject: u16,
) -> Result<Vec<Clause>, AllocError>
    requires subject { subject < length sizes.now }
    requires below { AllBelow (length sizes.now) clauses.now }
    ensures { IfOk result (λ r. AreResolvents sizes.now subject clauses.now r.items) }
{
    let mut all = never(alloc)?;
    for value in 0..sizes.get(subject as usize) {
        let rest = given(alloc, clauses, subject, value)?;
        all = combined(alloc, sizes, false, all, rest)?;
    }
    Ok(all)
}

/// The clauses with what they say of the other subjects in place of those that name this one.
pub(crate) fn without(
    alloc: Global,
    sizes: &Sizes,
    mut clauses: Vec<Clause>,
    subject: u16,
) -> Result<Vec<Clause>, AllocError>
    requires subject { subject < length sizes.now }
    requires below { AllBelow (length sizes.now) clauses.items }
    ensures { IfOk result (λ r. AreResolvents sizes.now subject clauses.items r.items) }
{
    let named = naming(alloc, &clauses, subject)?;
    let more = resolvents(alloc, sizes, &named, subject)?;
    keep_others(&mut clauses, subject);
    let rest = combined(alloc, sizes, true, clauses, more)?;
    Ok(rest)
}
