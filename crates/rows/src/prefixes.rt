//! Runs every prefix of a text.
use crate::finding::{Finding, compared};
use crate::run::{Case, run};
use std::alloc::{AllocError, Global};
use titan_top::Status;

/// How many lines of the text are the word `tick`.
fn ticks(text: &[u8]) -> usize {
    let lines = text.split(|byte| *byte == b'\n');
    lines.filter(|line| *line == b"tick".as_slice()).count()
}

/// The first lines of the text, so many of them.
fn first_lines(text: &[u8], count: usize) -> &[u8] {
    let mut seen = 0usize;
    for at in 0..text.len() {
        if seen == count {
            return &text[..at];
        }
        if text[at] == b'\n' {
            seen = seen.saturating_add(1);
        }
    }
    text
}

/// Compares what a prefix of a text writes with the ticks that it must write: nothing follows them, or one refusal.
fn prefix_finding(ended: Status, text: &[u8], wanted: &[u8]) -> Finding {
    match (text.strip_prefix(wanted), ended) {
        (Some(rest), Status::Ended) if rest.is_empty() => Finding::Right,
        (Some(rest), Status::Refused) if rest.starts_with(b"refused ") => Finding::Right,
        (Some(_), _) => Finding::Ended(ended),
        (None, _) => compared(ended, text, ended, wanted),
    }
}

/// Runs every prefix of the text: each writes as many ticks as it has, and then, unless it is taken to its end, a refusal.
pub fn prefixes(alloc: Global, case: Case<'_>) -> Result<Finding, AllocError> {
    for end in 0..=case.input.len() {
        let prefix = &case.input[..end];
        let (status, text) = run(alloc, case.words, prefix, case.ends)?;
        let finding = prefix_finding(status, &text, first_lines(case.wanted, ticks(prefix)));
        if finding != Finding::Right {
            return Ok(finding);
        }
    }
    Ok(Finding::Right)
}
