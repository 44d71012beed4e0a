//! Formulas to clauses, by distribution, with subsumed clauses dropped as they come.

ghost use Rattle.std.specs.Prelude.{◌≡◌, ℕ, List, ◌+◌, ◌-◌, ◌<◌, ◌≤◌, ◌^◌, length, IfOk, IsTrue, not, slice_index};
ghost use Rattle.cca_base.specs.Prelude.{has, is_within, subject_within};
ghost use Rattle.cca_base.specs.declared.limits.TheConstants.{MAX_CHOICES, MAX_SUBJECTS};
ghost use Rattle.clause_form.specs.Clauses.{AreValues, all_met, AllBelow};
ghost use Rattle.clause_form.specs.Formulas.{subject_number, Means, MeansAmong};

use crate::clause::{Clause, Literal};
use crate::combination::{combined, with_clause};
use crate::sizes::Sizes;
use cca_base::{Formula, List, Subject, ValueSet};
use std::alloc::{AllocError, Global};

/// The numbers below the size that are not in the set.
fn complement(size: u8, set: ValueSet) -> ValueSet
    requires { size ≤ MAX_CHOICES }
    ensures { (m : ℕ) → m < size → has result m ≡ not (has set m) }
{
    let mut others = ValueSet::empty();
    for n in 0..size {
        if !set.has(n) {
            others = others.with(n);
        }
    }
    others
}

/// The number of a component or a variable among the subjects.
fn number(components: u16, subjects: usize, subject: Subject) -> u16
    requires split { components ≤ subjects }
    requires few { subjects ≤ MAX_SUBJECTS }
    requires within { IsTrue (subject_within components (subjects - components) subject) }
    ensures value { result ≡ subject_number components subject }
    ensures inside { result < subjects }
{
    match subject {
        Subject::Component(c) => c,
        Subject::Variable(v) => components + v,
    }
}

/// No clause, or one that is never met.
fn constant(alloc: Global, value: bool) -> Result<Vec<Clause>, AllocError>
    ensures met { IfOk result (λ r. (xs : List ℕ) → all_met xs r.items ≡ value) }
    ensures below { IfOk result (λ r. (n : ℕ) → AllBelow n r.items) }
{
    let mut out = Vec::new(alloc);
    if !value {
        out.push(Clause {
            literals: List::new(alloc),
        })?;
    }
    Ok(out)
}

/// The clause that says that the subject has one of the values.
fn single(
    alloc: Global,
    sizes: &Sizes,
    subject: u16,
    values: ValueSet,
) -> Result<Vec<Clause>, AllocError>
    requires inside { subject < length sizes.now }
    ensures met { IfOk result (λ r.
        (xs : List ℕ) → AreValues sizes.now xs →
        all_met xs r.items ≡ has values (slice_index xs subject)) }
    ensures below { IfOk result (λ r. AllBelow (length sizes.now) r.items) }
{
    let mut literals = List::new(alloc);
    if !values.is_empty() {
        literals.push(Literal { subject, values })?;
    }
    with_clause(alloc, sizes, Vec::new(alloc), Clause { literals })
}

/// One clause that says whether the subject's value is in the set.
fn among(
    alloc: Global,
    components: u16,
    sizes: &Sizes,
    subject: Subject,
    set: ValueSet,
    wanted: bool,
) -> Result<Vec<Clause>, AllocError>
    requires split { components ≤ length sizes.now }
    requires numbered { length sizes.now ≤ MAX_SUBJECTS }
    requires within { IsTrue (subject_within components (length sizes.now - components) subject) }
    ensures means { IfOk result (λ r. MeansAmong components sizes.now subject set wanted r.items) }
    ensures below { IfOk result (λ r. AllBelow (length sizes.now) r.items) }
{
    let subject = number(components, sizes.len(), subject);
    let size = sizes.get(subject as usize);
    let values = if wanted {
        set.common(ValueSet::full(size))
    } else {
        complement(size, set)
    };
    single(alloc, sizes, subject, values)
}

/// Clauses that are all true exactly where the formula is as it is wanted.
pub fn clauses_where(
    alloc: Global,
    components: u16,
    sizes: &Sizes,
    formula: &Formula,
    wanted: bool,
) -> Result<Vec<Clause>, AllocError>
    requires split { components ≤ length sizes.now }
    requires numbered { length sizes.now ≤ MAX_SUBJECTS }
    requires within { IsTrue (is_within components (length sizes.now - components) formula.now) }
    ensures means { IfOk result (λ r. Means components sizes.now formula.now wanted r.items) }
    ensures below { IfOk result (λ r. AllBelow (length sizes.now) r.items) }
{
    match formula {
        Formula::True => constant(alloc, wanted),
        Formula::False => constant(alloc, !wanted),
        Formula::Among { subject, values } => {
            among(alloc, components, sizes, *subject, *values, wanted)
        }
        Formula::Not(part) => clauses_where(alloc, components, sizes, part.get(), !wanted),
        Formula::All(parts) => {
            let mut out = constant(alloc, wanted)?;
            for part in parts.as_slice() {
                let more = clauses_where(alloc, components, sizes, part, wanted)?;
                out = combined(alloc, sizes, wanted, out, more)?;
            }
            Ok(out)
        }
        Formula::Any(parts) => {
            let mut out = constant(alloc, !wanted)?;
            for part in parts.as_slice() {
                let more = clauses_where(alloc, components, sizes, part, wanted)?;
                out = combined(alloc, sizes, !wanted, out, more)?;
            }
            Ok(out)
        }
        Formula::Implies(a, b) => {
            let first = clauses_where(alloc, components, sizes, a.get(), !wanted)?;
            let second = clauses_where(alloc, components, sizes, b.get(), wanted)?;
            combined(alloc, sizes, !wanted, first, second)
        }
        Formula::Iff(a, b) => {
            let without = clauses_where(alloc, components, sizes, a.get(), false)?;
            let same = clauses_where(alloc, components, sizes, b.get(), wanted)?;
            let one = combined(alloc, sizes, false, without, same)?;
            let with = clauses_where(alloc, components, sizes, a.get(), true)?;
            let other = clauses_where(alloc, components, sizes, b.get(), !wanted)?;
            let two = combined(alloc, sizes, false, with, other)?;
            combined(alloc, sizes, true, one, two)
        }
    }
}
