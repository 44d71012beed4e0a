//! The same program as `titan`. Its stored run has two words that are no form, so that the words and the exit status are tested.
#![tactic(auto)]

use std::process::ExitCode;

fn main(rt: HostRuntime) -> ExitCode {
    command_line::run(&rt)
}
