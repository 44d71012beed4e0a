//! All prime implicants as cubes, or that there are more than may be.

use cca_base::{Cube, List};

/// The minimal cubes that no values meeting all clauses extend, or that there are more than were asked for.
#[derive(Debug, Drop)]
pub enum Primes {
    /// All of them, in cube order.
    Every(List<Cube>),
    More,
}
