//! Clauses of plain tables, and which values meet them.

ghost use Rattle.std.specs.Prelude.{◌<◌, All, IfSome, IsTrue};
ghost use Rattle.clause_form.specs.Clauses.{AreClauses};

use cca_base::{List, MAX_CHOICES, ValueSet};
use clause_form::{Clause, Clauses, Literal, Sizes};
use conformance_parts::list_of;
use std::alloc::Global;

/// Rows of literals: each a subject's number with a set of values.
pub type Literals<'a> = &'a [&'a [(u16, ValueSet)]];

fn inside(n: usize, literals: &[Literal]) -> bool
    ensures { IsTrue result → All (λ l. l.subject < n) literals.now }
{
    literals.iter().all(|l| (l.subject as usize) < n)
}

fn all_inside(n: usize, clauses: &[Clause]) -> bool
    ensures { IsTrue result → All (λ c. All (λ l. l.subject < n) c.literals) clauses.now }
{
    clauses.iter().all(|c| inside(n, c.literals.as_slice()))
}

fn clause(alloc: Global, row: &[(u16, ValueSet)]) -> Option<Clause> {
    let mut literals = List::new(alloc);
    for literal in row {
        literals
            .push(Literal {
                subject: literal.0,
                values: literal.1,
            })
            .ok()?;
    }
    Some(Clause { literals })
}

fn clause_list(alloc: Global, rows: Literals<'_>) -> Option<List<Clause>> {
    let mut list = List::new(alloc);
    for row in rows {
        let clause = clause(alloc, row)?;
        list.push(clause).ok()?;
    }
    Some(list)
}

/// Clauses over subjects of so many values.
pub fn clauses(alloc: Global, sizes: &[u8], rows: Literals<'_>) -> Option<Clauses>
    ensures { IfSome result AreClauses }
{
    let counts = list_of(alloc, sizes)?;
    let sizes = Sizes::of(counts)?;
    let clauses = clause_list(alloc, rows)?;
    if all_inside(sizes.len(), clauses.as_slice()) {
        return Some(Clauses { sizes, clauses });
    }
    None
}

fn is_met(clause: &Clause, values: &[u8]) -> bool {
    for literal in clause.literals.as_slice() {
        let at = literal.subject as usize;
        if at < values.len() && literal.values.has(values[at]) {
            return true;
        }
    }
    false
}

/// Whether these values make each clause true.
pub fn all_true(clauses: &Clauses, values: &[u8]) -> bool {
    for clause in clauses.clauses.as_slice() {
        if !is_met(clause, values) {
            return false;
        }
    }
    true
}

/// The one value.
pub fn one(value: u8) -> ValueSet {
    if (value as usize) < MAX_CHOICES {
        ValueSet::empty().with(value)
    } else {
        ValueSet::empty()
    }
}
