//! What the components need of one another. A caller gets the order of all components with effects before their causes or
//! the shown cycle, the ancestors of a component, and goals in that order.
#![tactic(auto)]

mod answer;
mod cycle;
mod distance;
mod effects;
mod flags;
mod goal;
mod laws;
mod ordering;
mod reach;

pub use answer::Order;
pub use goal::{sort_goal, sort_into};
pub use laws::answers_are_of_models;
pub use ordering::order;
pub use reach::ancestors;
