//! The minimal cubes that nothing meeting all clauses extends. A caller gets all of them in cube order, or hears early
//! that there are more than it asked for.
#![tactic(auto)]

mod answer;
mod choices;
mod completion;
mod cubes;
mod dense_clause;
mod dense_clauses;
mod found;
mod gathering;
mod implicants;
mod minimal;
mod purity;
mod rows;

pub use answer::Primes;
pub use implicants::primes;
