//! A program that runs.

use control_program::{Runner, TurnRoom};

/// A program's runner, with the room of its turns, which is made once.
#[derive(Drop)]
pub struct Running {
    pub runner: Runner,
    pub room: TurnRoom,
}
