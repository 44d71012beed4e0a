//! Clauses that are asked for beside a problem's own.

ghost use Rattle.std.specs.Prelude.{◌≡◌, length, IfOk};
ghost use Rattle.clause_form.specs.Clauses.{AreClauses};

use crate::words::{WordClause, word_clauses};
use clause_form::{Clauses, Sizes};
use std::alloc::{AllocError, Global};
use std::marker::Model;

/// Clauses to be asked for beside those of a problem, made ready once. A contract sees the clauses.
#[derive(Drop)]
pub struct Beside {
    clauses: Clauses,
    /// The same clauses with words for sets.
    pub(crate) words: Vec<WordClause>,
}

impl Model for Beside {
    ghost use Rattle.clause_form.specs.declared.clause.Clauses.{Clauses};
    ghost use Rattle.world_search.specs.Spaces.{AreWords};

    ghost Value = { Clauses };

    ghost view = { λ b. b.clauses };

    ghost invariant = { λ b. AreWords b.clauses b.words.items };
}

impl Beside {
    /// The clauses, made ready. The error is out of memory.
    pub fn of(alloc: Global, clauses: Clauses) -> Result<Beside, AllocError>
        requires below { AreClauses clauses }
        ensures { IfOk result (λ b. b ≡ clauses) }
    {
        let words = word_clauses(alloc, clauses.clauses.as_slice(), clauses.sizes.len())?;
        Ok(Beside { clauses, words })
    }

    /// The clauses, as they were given.
    pub fn clauses(&self) -> &Clauses
        ensures value { result.now ≡ self.now }
        ensures below { AreClauses self.now }
    {
        &self.clauses
    }
}
