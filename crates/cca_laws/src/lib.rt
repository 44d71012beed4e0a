//! Functions that cite the definitions of the base crate, so that each of them is read, and laws that test them.
#![tactic(auto)]

ghost use Rattle.cca_laws.specs.Cited.{Cited};

mod examples;
mod laws;

pub use examples::{
    causes, chains, changes, chosen, edges, empty, excuses, firsts, formulas, implicants, lamp,
    mends, mirrors, more, no_chains, observed, right, serves, successors, valve, within,
};
pub use laws::{
    compiled, conditions, costs, estimates, first_version, goals, orders, plans, traces,
};

/// The definitions are cited.
pub fn cited()
    ensures { Cited → Cited }
{}
