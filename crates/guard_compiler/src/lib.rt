//! A model's rules as clauses, the states that have a world by them, and guards as their prime implicants. Where all states
//! have one, a caller gets, for a move, exactly the minimal conditions on the other components from which the guard follows,
//! in cube order, or hears that there are too many; and for any other formula the minimal conditions on all components.
#![tactic(auto)]

mod conjunctions;
mod cover;
mod fixed;
mod guards;
mod implicants;
mod marks;
mod owners;
mod relevant;
mod rules;
mod union;
mod unions;
mod wish_parts;
mod wishes;
mod worlds;

pub use implicants::{ways, ways_of};
pub use rules::{RuleClause, rules_of};
pub use wishes::wish_implicants;
pub use worlds::worlds_of;
