//! Subjects projected away from clauses. A caller gets clauses over the subjects that are kept, true exactly where some
//! values of the others make the given ones true.
#![tactic(auto)]

mod cost;
mod kept;
mod next;
mod projection;
mod removal;
mod subject;

pub use projection::project;
pub use subject::project_subject;
