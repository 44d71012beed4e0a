//! The prime implicants of clauses, in cube order.

ghost use Rattle.std.specs.Prelude.{◌↔◌, IfOk};
ghost use Rattle.clause_form.specs.Clauses.{AreClauses};
ghost use Rattle.prime_implicants.specs.Primes.{AreAllPrimes, AreMorePrimes, IfEvery, IsMore};

use crate::answer::Primes;
use crate::choices::all_minimal;
use crate::completion::complete;
use crate::cubes::cubes_of;
use crate::rows::least_rows_of;
use clause_form::Clauses;
use std::alloc::{AllocError, Global};

/// All minimal cubes over the clauses' subjects that no values meeting all clauses extend, in cube order; or `More`,
/// exactly where there are more than `most`, without making them all. The error is out of memory.
pub fn primes(alloc: Global, clauses: &Clauses, most: u32) -> Result<Primes, AllocError>
    requires { AreClauses clauses.now }
    ensures every { IfOk result (λ r. IfEvery r (AreAllPrimes clauses.now most)) }
    ensures more { IfOk result (λ r. IsMore r ↔ AreMorePrimes clauses.now most) }
{
    let mut rows = least_rows_of(alloc, clauses)?;
    complete(alloc, &clauses.sizes, &mut rows)?;
    let sizes = clauses.sizes.as_slice();
    match all_minimal(alloc, sizes, rows.as_slice(), most as usize)? {
        Some(found) => Ok(Primes::Every(cubes_of(alloc, found)?)),
        None => Ok(Primes::More),
    }
}
