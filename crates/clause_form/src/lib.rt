//! Formulas as signed clauses over numbered subjects, and the algebra of such clauses. A caller gets clauses that are all
//! true exactly where the model's rules are, a given pair stands and a given formula is false, or where a formula is false.
#![tactic(auto)]

mod clause;
mod combination;
mod condition;
mod convert;
mod last;
mod literals;
mod parted;
mod sizes;
mod subsumption;
mod whole;

pub use clause::{Clause, Clauses, Literal};
pub use combination::combined;
pub use condition::given;
pub use parted::{copies, keep_others, naming};
pub use sizes::{Sizes, sizes_of};
pub use whole::{clauses_of, denied_clauses};
