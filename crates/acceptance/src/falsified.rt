//! The first values in order that make some clause false.

ghost use Rattle.std.specs.Prelude.{◌≡◌, ◌≤◌, ◌<◌, ℕ, List, length, true, false, All, IfOk, IfSome, IfNone, OnOk, IsTrue, MatchOption};
ghost use Rattle.std.specs.Option.{option_map};
ghost use Rattle.cca_base.specs.Prelude.{IsEarlier};
ghost use Rattle.clause_form.specs.Clauses.{AreValues, AreClauses, is_met};
ghost use Rattle.std.specs.Ordering.{nat_cmp, is_lt as is_less};
ghost use Rattle.std.specs.Cmp.Lexicographic.{slice_cmp};
ghost use Rattle.acceptance.specs.Falsified.{is_free, IsLeastFree, IsLeastFalse, IsFirstOrNone, LeastOrNone, first_of};

use cca_base::{List as Items, State};
use clause_form::{Clause, Clauses, Literal};
use std::alloc::{AllocError, Global};

/// Whether no literal is true where the subject has the value.
fn is_free(literals: &[Literal], subject: usize, value: u8) -> bool
    ensures { result ≡ is_free literals.now subject value }
{
    literals
        .iter()
        .all(|l| l.subject as usize != subject || !l.values.has(value))
}

/// The least value of the subject with which no literal is true.
fn least_free(literals: &[Literal], subject: usize, size: u8) -> Option<u8>
    ensures some { IfSome result (IsLeastFree literals.now subject size) }
    ensures none { IfNone result ((v : ℕ) → v < size → is_free literals.now subject v ≡ false) }
{
    for value in 0..size {
        if is_free(literals, subject, value) {
            return Some(value);
        }
    }
    None
}

/// Values that make the clause false, each the least that does. None comes exactly where the clause is always met.
fn least_false(alloc: Global, sizes: &[u8], clause: &Clause) -> Result<Option<State>, AllocError>
    requires { All (λ l. l.subject < length sizes.now) clause.now.literals }
    ensures { IfOk result (λ r.
        LeastOrNone sizes.now clause.now.literals (option_map (λ s. s.modes) r)) }
{
    let mut modes = Items::new(alloc);
    for subject in 0..sizes.len() {
        match least_free(clause.literals.as_slice(), subject, sizes[subject]) {
            Some(value) => modes.push(value)?,
            None => return Ok(None),
        }
    }
    Ok(Some(State { modes }))
}

/// Whether the first state comes before the second.
fn is_before(a: &State, b: &State) -> bool
    ensures { result ≡ is_less (slice_cmp nat_cmp a.now.modes b.now.modes) }
{
    a.modes.as_slice().cmp(b.modes.as_slice()).is_lt()
}

/// The earlier of two states, or the one that there is.
fn first_of(best: Option<State>, new: Option<State>) -> Option<State>
    ensures { option_map (λ s. s.modes) result
        ≡ first_of (option_map (λ s. s.modes) best) (option_map (λ s. s.modes) new) }
{
    match (best, new) {
        (Some(best), Some(new)) => {
            if is_before(&new, &best) {
                Some(new)
            } else {
                Some(best)
            }
        }
        (Some(best), None) => Some(best),
        (None, new) => new,
    }
}

/// The first values that make some clause false. None comes exactly where all clauses are always met.
pub fn first_false(alloc: Global, clauses: &Clauses) -> Result<Option<State>, AllocError>
    requires { AreClauses clauses.now }
    ensures { IfOk result (λ r.
        IsFirstOrNone clauses.now.sizes clauses.now.clauses (option_map (λ s. s.modes) r)) }
{
    let sizes = clauses.sizes.as_slice();
    let mut best = None;
    for clause in clauses.clauses.as_slice() {
        best = first_of(best, least_false(alloc, sizes, clause)?);
    }
    Ok(best)
}
