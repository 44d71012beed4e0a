//! A row of a run over its text in version 2.
use crate::finding::{Finding, compared};
use crate::run::{Case, Ends, run};
use std::alloc::{AllocError, Global};
use titan_top::Status;

/// Whether the words ask for a run.
fn ask_for_a_run(words: &str) -> bool {
    match words.split_whitespace().next() {
        Some(word) => word == "run",
        None => false,
    }
}

/// How a row comes out over its text in version 2, if its words ask for a run: it has to print what is wanted of the row, and
/// to be migrated to itself.
pub fn migrated(alloc: Global, case: Case<'_>) -> Result<Finding, AllocError> {
    let Case {
        words,
        input,
        ends,
        wanted,
    } = case;
    if !ask_for_a_run(words) {
        return Ok(Finding::Right);
    }
    // No printed line is longer than the line that was read, but for the LF that the last one may lack.
    let room = input.len().saturating_add(1);
    let wide = Ends { room, ..ends };
    let (first, text) = run(alloc, "migrate", input, wide)?;
    if first != Status::Ended || !text.starts_with(b"titan 2\n") {
        return Ok(Finding::NotMigrated);
    }
    let (second, same) = run(alloc, "migrate", &text, wide)?;
    if compared(second, &same, Status::Ended, &text) != Finding::Right {
        return Ok(Finding::NotMigrated);
    }
    let (ended, printed) = run(alloc, words, &text, ends)?;
    if compared(ended, &printed, Status::Ended, wanted) != Finding::Right {
        return Ok(Finding::RunsOtherwise);
    }
    Ok(Finding::Right)
}
