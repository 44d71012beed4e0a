//! Clauses over subjects with few values each, and what their invariants are.

ghost use Rattle.std.specs.Prelude.{◌≡◌, ◌==◌, IfOk};
ghost use Rattle.clause_form.specs.Clauses.{names_one};

use crate::sizes::Sizes;
use cca_base::{List, ValueSet};
use std::alloc::{AllocError, Global};

/// A subject that has one of the values. Subjects are numbered from 0.
#[derive(Clone, Copy, Debug, PartialEq, Eq)]
pub struct Literal {
    pub subject: u16,
    pub values: ValueSet,
}

/// True where some literal is.
#[derive(Debug, Drop)]
pub struct Clause {
    pub literals: List<Literal>,
}

impl Clause {
    /// The same clause. The error is out of memory.
    pub fn copy(&self, alloc: Global) -> Result<Clause, AllocError>
        ensures { IfOk result (λ r. r ≡ self.now) }
    {
        let literals = self.literals.copy(alloc)?;
        Ok(Clause { literals })
    }

    /// Whether a literal is of the subject.
    pub fn names(&self, subject: u16) -> bool
        ensures { result ≡ names_one (λ u. u == subject) self.now }
    {
        self.literals
            .as_slice()
            .iter()
            .any(|literal| literal.subject == subject)
    }
}

/// Clauses over subjects of which each has so many values, numbered from 0.
#[derive(Debug, Drop)]
pub struct Clauses {
    /// How many values each subject has.
    pub sizes: Sizes,
    pub clauses: List<Clause>,
}
