//! Clauses of words with an index of the places where each subject stands.

ghost use Rattle.std.specs.Prelude.{length, All, IfOk};
ghost use Rattle.std.specs.List.{AllZip};
ghost use Rattle.clause_form.specs.Clauses.{AllBelow};
ghost use Rattle.world_search.specs.Words.{IsClauseInside, MeanSame};

use crate::words::{WordClause, WordLiteral, word_clauses};
use clause_form::Clause;
use std::alloc::{AllocError, Global};

/// Clauses of words.
#[derive(Drop)]
pub struct Rules {
    pub clauses: Vec<WordClause>,
    /// For each subject the places of the clauses that name it, as an index for speed.
    pub places: Vec<Vec<usize>>,
    /// How many subjects, from the first, are tried before all others.
    pub preferred: usize,
}

fn add_place(
    places: &mut Vec<Vec<usize>>,
    literals: &[WordLiteral],
    at: usize,
) -> Result<(), AllocError> {
    for literal in literals {
        if let Some(own) = places.get_mut(literal.subject as usize) {
            own.push(at)?;
        }
    }
    Ok(())
}

/// For each subject the places of the clauses that name it.
fn places_of(
    alloc: Global,
    clauses: &[WordClause],
    subjects: usize,
) -> Result<Vec<Vec<usize>>, AllocError> {
    let mut places = Vec::with_capacity(alloc, subjects)?;
    for _ in 0..subjects {
        places.push(Vec::new(alloc))?;
    }
    for (at, clause) in clauses.iter().enumerate() {
        add_place(&mut places, clause.literals.as_slice(), at)?;
    }
    Ok(places)
}

/// The places of the clauses that name the subject.
pub fn places_at<'a>(rules: &'a Rules, subject: u16) -> &'a [usize] {
    match rules.places.get(subject as usize) {
        Some(places) => places.as_slice(),
        None => &[],
    }
}

/// The clauses with words for sets, and their index. The error is out of memory.
pub fn rules_of(
    alloc: Global,
    clauses: &[Clause],
    subjects: usize,
    preferred: usize,
) -> Result<Rules, AllocError>
    requires { AllBelow subjects clauses.now }
    ensures inside { IfOk result (λ r. All (IsClauseInside subjects) r.clauses.items) }
    ensures same { IfOk result (λ r. AllZip (λ c w. MeanSame c.literals w) clauses.now r.clauses.items) }
{
    let words = word_clauses(alloc, clauses, subjects)?;
    let places = places_of(alloc, words.as_slice(), subjects)?;
    Ok(Rules {
        clauses: words,
        places,
        preferred,
    })
}
