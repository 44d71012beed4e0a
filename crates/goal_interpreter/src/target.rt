//! What is answered for a wish.

ghost use Rattle.std.specs.Prelude.{◌≡◌};
ghost use Rattle.goal_interpreter.specs.declared.target.TheConstants.{MAX_IMPLICANTS};

use cca_base::{Goal, State};

/// The most prime implicants of a wish.
pub const MAX_IMPLICANTS: usize = 4096;

/// The limit by its number.
pub fn limit_is_fixed()
    ensures { MAX_IMPLICANTS ≡ 4096 }
{}

/// The target of a wish, or why there is none.
#[derive(Debug, Drop)]
pub enum Target {
    /// The lightest settled state that holds the wish, what it weighs, and the goal that leads there.
    Found {
        state: State,
        weight: u64,
        goal: Goal,
    },
    /// No settled state holds the wish.
    Nowhere,
    /// The wish has more than `MAX_IMPLICANTS` prime implicants.
    Many,
}
