//! The rows of `lines.txt`: a line that is put into a text, and its refusal.
ghost use Rattle.std.specs.Prelude.{◌≤◌, length, IfSome};

use crate::finding::{Finding, compared};
use crate::run::{Ends, run};
use crate::table::cell;
use crate::tally::Tally;
use std::alloc::{AllocError, Global};
use std::rt::Files;
use std::{fs, io};
use titan_top::Status;

/// Where the line of this number, from 1, begins, if so many lines less one end before it.
fn line_start(text: &[u8], number: u32) -> Option<usize>
    ensures { IfSome result (λ at. at ≤ length text.now) }
{
    let mut line = 1u32;
    for at in 0..text.len() {
        if line == number {
            return Some(at);
        }
        if text[at] == b'\n' {
            line = line.saturating_add(1);
        }
    }
    if line == number {
        Some(text.len())
    } else {
        None
    }
}

/// The text with this line put in before the one of this number, if there is room for it.
fn with_line(
    alloc: Global,
    text: &[u8],
    number: u32,
    line: &[u8],
) -> Result<Option<Vec<u8>>, AllocError> {
    let Some(at) = line_start(text, number) else {
        return Ok(None);
    };
    let mut bytes = Vec::from_slice(alloc, &text[..at])?;
    bytes.extend_from_slice(line)?;
    bytes.push(b'\n')?;
    bytes.extend_from_slice(&text[at..])?;
    Ok(Some(bytes))
}

/// How the text comes out for each list of words between commas: it has to be refused so.
fn refusal_finding(
    alloc: Global,
    words: &str,
    input: &[u8],
    refusal: &str,
) -> Result<Finding, AllocError> {
    let wanted = format!(in alloc; "{refusal}\n")?;
    for words in words.split(',') {
        let (ended, text) = run(alloc, words, input, Ends::STEADY)?;
        let finding = compared(ended, &text, Status::Refused, wanted.as_bytes());
        if finding != Finding::Right {
            return Ok(finding);
        }
    }
    Ok(Finding::Right)
}

/// Runs the row of this line, and reports how it comes out.
pub fn line_finding<R: Files + Print + AllocGlobal>(
    rt: &R,
    folder: &str,
    tally: &mut Tally,
    line: &str,
) -> io::Result<()> {
    let alloc = rt.alloc();
    let (base, rest) = cell(line);
    let (words, rest) = cell(rest);
    let (number, rest) = cell(rest);
    let (refusal, rest) = cell(rest);
    let put = rest.strip_prefix(' ').unwrap_or(rest);
    let finding = match (
        fs::read(rt, format!(in alloc; "{folder}/{base}.titan")?),
        number.parse::<u32>(),
    ) {
        (Err(_), _) => Finding::NoFile,
        (Ok(_), Err(_)) => Finding::NoRow,
        (Ok(text), Ok(number)) => match with_line(alloc, &text, number, put.as_bytes())? {
            Some(input) => refusal_finding(alloc, words, &input, refusal)?,
            None => Finding::NoRow,
        },
    };
    let row = format!(in alloc; "{base} {number}: {put}")?;
    tally.report(rt, &row, finding)
}
