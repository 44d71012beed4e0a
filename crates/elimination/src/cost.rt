//! What it costs to project a subject away: the product, over its values, of how many clauses that name it lack the value.
//! No claim rests on the costs, since subjects may be projected away in any order.

ghost use Rattle.std.specs.Prelude.{◌≤◌, length};
ghost use Rattle.cca_base.specs.declared.limits.TheConstants.{MAX_CHOICES};
ghost use Rattle.clause_form.specs.Clauses.{AllBelow, AreBelow};

use cca_base::MAX_CHOICES;
use clause_form::{Clause, Literal, Sizes};
use std::alloc::{AllocError, Global};

/// How many counts a subject has: one for each value that it may have, and behind them how many clauses name it.
const COUNTS: usize = MAX_CHOICES + 1;

/// For each subject and each of its values, how many clauses that name the subject lack the value.
#[derive(Debug, Drop)]
pub(crate) struct Costs {
    counts: Vec<u32>,
}

impl Costs {
    /// The counts of these clauses. The error is out of memory.
    pub(crate) fn of(alloc: Global, sizes: &Sizes, clauses: &[Clause]) -> Result<Costs, AllocError>
        requires below { AllBelow (length sizes.now) clauses.now }
    {
        let subjects = sizes.len().min(usize::from(u16::MAX) + 1);
        let mut counts = vec![in alloc; 0u32; subjects * COUNTS]?;
        for clause in clauses {
            count_clause(sizes, clause, &mut counts);
        }
        Ok(Costs { counts })
    }

    /// The cost of the subject with so many values, or None if no clause names it.
    pub(crate) fn cost(&self, size: u8, subject: u16) -> Option<u64> {
        let start = usize::from(subject) * COUNTS;
        if self.count(start + MAX_CHOICES) == 0 {
            return None;
        }
        let mut product = 1u64;
        for value in 0..size {
            product = product.saturating_mul(u64::from(self.count(start + usize::from(value))));
        }
        Some(product)
    }

    fn count(&self, place: usize) -> u32 {
        self.counts.get(place).copied().unwrap_or(0)
    }
}

/// Counts the clause at each of its literals.
fn count_clause(sizes: &Sizes, clause: &Clause, counts: &mut [u32])
    requires below { AreBelow (length sizes.now) clause.now.literals }
{
    for literal in clause.literals.as_slice() {
        count_literal(sizes.get(usize::from(literal.subject)), literal, counts);
    }
}

/// Counts one literal of a subject with so many values.
fn count_literal(size: u8, literal: &Literal, counts: &mut [u32])
    requires { size ≤ MAX_CHOICES }
{
    let start = usize::from(literal.subject) * COUNTS;
    count_one(counts, start + MAX_CHOICES);
    for value in 0..size {
        if !literal.values.has(value) {
            count_one(counts, start + usize::from(value));
        }
    }
}

fn count_one(counts: &mut [u32], place: usize) {
    if let Some(count) = counts.get_mut(place) {
        *count = count.saturating_add(1);
    }
}
