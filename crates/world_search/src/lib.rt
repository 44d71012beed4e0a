//! Whether some world has given pairs, and if not, which of them are to blame: a search with learning in a workspace that is made once.
#![tactic(auto)]

mod activity;
mod answer;
mod assume;
mod beside;
mod choose;
mod learn;
mod mend;
mod problem;
mod propagate;
mod restart;
mod room;
mod rules;
mod search;
mod seen;
mod space;
mod store;
mod vary;
mod visit;
mod words;
mod work;

pub use answer::Answer;
pub use beside::Beside;
pub use problem::Problem;
pub use space::Space;
pub use store::MAX_SLOTS;
pub use words::has_value;
