//! Clauses whose sets of values are words of bits.

ghost use Rattle.std.specs.Prelude.{◌≡◌, ◌≢◌, ℕ, true, length, All, IfOk};
ghost use Rattle.std.specs.List.{AllZip};
ghost use Rattle.cca_base.specs.Sets.{has};
ghost use Rattle.clause_form.specs.Clauses.{AllBelow, AreBelow};
ghost use Rattle.world_search.specs.Words.{AreInside, IsClauseInside, MeanSame, met};

use cca_base::MAX_CHOICES;
use clause_form::{Clause, Literal};
use std::alloc::{AllocError, Global};

/// A subject that has one of the values.
#[derive(Clone, Copy)]
pub struct WordLiteral {
    pub subject: u16,
    pub values: u64,
}

/// True where some literal is.
#[derive(Drop)]
pub struct WordClause {
    pub literals: Vec<WordLiteral>,
}

/// Whether the value is in the word's set.
#[tactic(auto, using(std::proofs::lemmas::Nat::Bits::shr_and_one, std::proofs::lemmas::Nat::Bits::bit_at_above))]
pub fn has_value(word: u64, value: u8) -> bool
    ensures { result ≡ has word value }
{
    (value as usize) < MAX_CHOICES && (word >> value) & 1 == 1
}

/// The set without the value.
pub fn without(word: u64, value: u8) -> u64
    ensures { (a : ℕ) → has result a ≡ true → (has word a ≡ true) × (a ≢ value) }
{
    if (value as usize) < MAX_CHOICES {
        word & !(1u64 << value)
    } else {
        word
    }
}

/// Whether some literal is true.
pub fn is_met(literals: &[WordLiteral], values: &[u8]) -> bool
    requires { AreInside (length values.now) literals.now }
    ensures { result ≡ met values.now literals.now }
{
    for literal in literals {
        if has_value(literal.values, values[literal.subject as usize]) {
            return true;
        }
    }
    false
}

/// The literals with words for sets.
fn words_of(alloc: Global, literals: &[Literal], subjects: usize) -> Result<WordClause, AllocError>
    requires { AreBelow subjects literals.now }
    ensures inside { IfOk result (IsClauseInside subjects) }
    ensures same { IfOk result (MeanSame literals.now) }
{
    let mut words = Vec::with_capacity(alloc, literals.len())?;
    for literal in literals {
        words.push(WordLiteral {
            subject: literal.subject,
            values: literal.values.bits(),
        })?;
    }
    Ok(WordClause { literals: words })
}

/// The clauses with words for sets. The error is out of memory.
pub fn word_clauses(
    alloc: Global,
    clauses: &[Clause],
    subjects: usize,
) -> Result<Vec<WordClause>, AllocError>
    requires { AllBelow subjects clauses.now }
    ensures inside { IfOk result (λ r. All (IsClauseInside subjects) r.items) }
    ensures same { IfOk result (λ r. AllZip (λ c w. MeanSame c.literals w) clauses.now r.items) }
{
    let mut all = Vec::with_capacity(alloc, clauses.len())?;
    for clause in clauses {
        all.push(words_of(alloc, clause.literals.as_slice(), subjects)?)?;
    }
    Ok(all)
}
