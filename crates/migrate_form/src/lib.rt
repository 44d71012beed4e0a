//! The form `migrate`: it reads a document and prints it as one of version 2, with its events' lines as they stand. What it prints of
//! a document that is read whole is that document in version 2: a run says the same of both.
#![tactic(auto)]

mod laws;
mod migrate;
mod script;

pub use laws::{documents_migrate, migrations_are_told};
pub use migrate::{Migrate, MigrateMachine, OpensSecond, open_migrate};
pub use script::{KeptLine, ScriptInSecond};
