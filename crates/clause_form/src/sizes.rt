//! How many values each component and each variable has.

ghost use Rattle.std.specs.Prelude.{◌≡◌, ◌≤◌, ◌<◌, ◌++◌, ◌+◌, length, slice_index, take, All, IfOk, IfSome, IsNone};
ghost use Rattle.cca_base.specs.Prelude.{mode_counts, value_counts};
ghost use Rattle.cca_base.specs.declared.limits.TheConstants.{MAX_CHOICES};

use cca_base::{List, MAX_CHOICES, Model};
use std::alloc::{AllocError, Global};

/// How many values each subject has, of none more than a set of values holds. A contract sees the list of the numbers.
#[derive(Debug, Drop)]
pub struct Sizes {
    counts: List<u8>,
}

impl std::marker::Model for Sizes {
    ghost use Rattle.std.specs.Prelude.{◌≤◌, All, List, ℕ};
    ghost use Rattle.std.specs.Coded.{codes};
    ghost use Rattle.cca_base.specs.declared.limits.TheConstants.{MAX_CHOICES};

    ghost Value = { List ℕ };

    ghost coded = { Prim.hlevel codes };

    ghost view = { λ s. s.counts };

    ghost invariant = { λ s. All (λ n. n ≤ MAX_CHOICES) s.counts };
}

impl Sizes {
    /// These numbers, or None exactly where one of them is too great.
    pub fn of(counts: List<u8>) -> Option<Sizes>
        ensures some { IfSome result (λ sizes. sizes ≡ counts) }
        ensures none { IsNone result → All (λ n. n ≤ MAX_CHOICES) counts → ⊥ }
    {
        if counts.as_slice().iter().all(|n| *n as usize <= MAX_CHOICES) {
            return Some(Sizes { counts });
        }
        None
    }

    /// How many subjects there are.
    pub fn len(&self) -> usize
        ensures { result ≡ length self.now }
    {
        self.counts.len()
    }

    /// How many values the subject has.
    pub fn get(&self, subject: usize) -> u8
        requires { subject < length self.now }
        ensures value { result ≡ slice_index self.now subject }
        ensures few { result ≤ MAX_CHOICES }
    {
        *self.counts.get(subject)
    }

    /// The numbers, for loops.
    pub fn as_slice(&self) -> &[u8]
        ensures value { result.now ≡ self.now }
        ensures few { All (λ n. n ≤ MAX_CHOICES) self.now }
    {
        self.counts.as_slice()
    }

    /// The sizes of the first subjects, so many of them. The error is out of memory.
    pub fn first(&self, alloc: Global, count: usize) -> Result<Sizes, AllocError>
        requires { count ≤ length self.now }
        ensures { IfOk result (λ sizes. sizes ≡ take count self.now) }
    {
        let counts = Vec::from_slice(alloc, &self.counts.as_slice()[..count])?;
        Ok(Sizes {
            counts: List::of(counts),
        })
    }

    /// The same sizes. The error is out of memory.
    pub fn copy(&self, alloc: Global) -> Result<Sizes, AllocError>
        ensures { IfOk result (λ sizes. sizes ≡ self.now) }
    {
        let counts = self.counts.copy(alloc)?;
        Ok(Sizes { counts })
    }
}

/// How many modes the component has, or how many values the variable, which are counted behind the components.
fn size_of(model: &Model, subject: usize) -> u8
    requires { subject < length model.now.components + length model.now.variables }
    ensures { result ≡ slice_index (mode_counts model.now ++ value_counts model.now) subject }
{
    let components = model.components();
    if subject < components.len() {
        return components.get(subject).modes.len() as u8;
    }
    let variable = model.variables().get(subject - components.len());
    variable.values.len() as u8
}

/// How many modes each component has, and then how many values each variable. The error is out of memory.
pub fn sizes_of(alloc: Global, model: &Model) -> Result<Sizes, AllocError>
    ensures { IfOk result (λ r. r ≡ mode_counts model.now ++ value_counts model.now) }
{
    let mut counts = List::new(alloc);
    for subject in 0..model.components().len() + model.variables().len() {
        counts.push(size_of(model, subject))?;
    }
    Ok(Sizes { counts })
}
