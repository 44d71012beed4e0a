//! The types that every layer of the executive speaks of: models of concurrent components, states and worlds, goals,
//! events and reports. A `Model` is well formed whenever a caller sees it, and `holds_at` is the truth of a formula.
#![tactic(auto)]

mod boxed;
mod choice;
pub mod codes;
mod compiled;
mod cube;
mod events;
mod formula;
mod index;
mod laws;
mod least;
mod limits;
mod list;
mod model;
mod name;
mod numbers;
mod sets;
mod state;
mod steps;

pub use boxed::Boxed;
pub use choice::{Choice, Choices};
pub use compiled::Compiled;
pub use cube::{Cube, Pair};
pub use events::{Detail, Event, PlanEnd, Refusal, Reply, Route, Shown, Stop, TickReport};
pub use formula::{Formula, Subject, holds_at};
pub use laws::{codes_are_fixed, formulas_are_within, limits_are_fixed};
pub use least::lesser;
pub use limits::{
    MAX_BOUND, MAX_CHOICES, MAX_COMPONENTS, MAX_COST, MAX_DEPTH, MAX_FAILURES, MAX_MOVES, MAX_NAME,
    MAX_PLAN, MAX_ROWS, MAX_RULES, MAX_SUBJECTS, MAX_VARIABLES, MAX_WAYS, MAX_WEIGHT,
};
pub use list::List;
pub use model::{Component, Failure, Model, Move, Variable};
pub use name::Name;
pub use numbers::numbers_below;
pub use sets::{ValueSet, VarSet};
pub use state::{Goal, Seen, State, World};
pub use steps::Steps;
