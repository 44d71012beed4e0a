//! Goal interpretation: from a wish, a formula, to the lightest settled state in which it is true, and the goal that leads there.
#![tactic(auto)]

ghost use Rattle.goal_interpreter.specs.Laws.{OneAnswer};

mod candidate;
mod choose;
mod goal;
mod light;
mod target;
mod weights;
mod wish;

pub use target::{MAX_IMPLICANTS, Target, limit_is_fixed};
pub use weights::Weights;
pub use wish::{interpret, interpret_by};

/// A wish has one answer.
pub fn one_answer()
    ensures { OneAnswer }
{}
