//! What is printed of a tick, as it is handed in.

use cca_base::{Route, TickReport, World};

/// The tick's line, and the proof lines that come with it.
#[derive(Drop)]
pub(crate) struct Tick<'a> {
    pub report: &'a TickReport,
    pub world: Option<&'a World>,
    pub route: Option<&'a Route>,
}
