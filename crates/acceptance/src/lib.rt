//! Which models may fly. A caller of `accept` gets a compiled model exactly where the model is accepted, with its moves'
//! prime implicants, its order and its bounds; else it hears what stands against the model first, with the example that is
//! shown of it, and has the model back.
#![tactic(auto)]

mod accepting;
mod all_ways;
mod bounds;
mod clash;
mod falsified;
mod laws;
mod needs;

pub use accepting::{NotAccepted, accept};
pub use laws::models_are_refused_one_way;
