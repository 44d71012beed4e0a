//! What the crates `conformance_*` build on: models of texts, and modes, states and observations of plain tables.
#![tactic(auto)]

mod texts;
mod values;

pub use texts::{HUNG_UNIT, LATCHED_UNIT, STICKING_VALVE, VALVE, model_of, model_with, reader_of};
pub use values::{Pairs, has_mode, lacks, list_of, modes_of, pair, pairs_of, seen, state_of};
