//! The rows of `rows.txt`: an input, and how the program must end and what it must write.
use crate::finding::{Finding, compared};
use crate::in_turn::in_turn;
use crate::migrated::migrated;
use crate::prefixes::prefixes;
use crate::run::{Case, Ends, run, run_endless};
use crate::table::cell;
use crate::tally::Tally;
use std::alloc::{AllocError, Global};
use std::rt::Files;
use std::{fs, io};
use titan_top::Status;

/// How a row is run.
#[derive(Clone, Copy, Debug, PartialEq, Eq)]
enum Kind {
    /// Over its input.
    Whole,
    /// Over each prefix of its input.
    Prefixes,
    /// Over its byte, which comes without end.
    Endless,
    /// Over its input, a line a call, to see the order of reads and writes.
    InTurn,
}

/// What a row says beside its name and its words.
#[derive(Drop)]
struct Row {
    status: Status,
    input: String,
    output: String,
    kind: Kind,
    fill: usize,
    byte: u8,
    ends: Ends,
}

impl Row {
    /// Whether the row ends over its whole input, and neither end fails.
    fn is_steady(&self) -> bool {
        self.status == Status::Ended && self.ends.take == 0 && self.ends.put == 0
    }

    /// Takes a field whose value is a number, if there is one of this name.
    fn set_number(&mut self, name: &str, value: u32) -> bool {
        match name {
            "pieces" => self.ends.pieces = value as usize,
            "take" => self.ends.take = u64::from(value),
            "put" => self.ends.put = u64::from(value),
            "room" => self.ends.room = value as usize,
            "fill" => self.fill = value as usize,
            "byte" if value < 256 => self.byte = value as u8,
            _ => return false,
        }
        true
    }

    /// Takes a field without a value, if there is one of this name.
    fn set_kind(&mut self, name: &str) -> bool {
        match name {
            "prefixes" => self.kind = Kind::Prefixes,
            "endless" => self.kind = Kind::Endless,
            "in_turn" => self.kind = Kind::InTurn,
            _ => return false,
        }
        true
    }

    /// Takes a field, if there is such a one.
    fn set(&mut self, alloc: Global, field: &str) -> Result<bool, AllocError> {
        match field.split_once('=') {
            None => return Ok(self.set_kind(field)),
            Some(("input", name)) => self.input = String::from_str(alloc, name)?,
            Some(("output", name)) => self.output = String::from_str(alloc, name)?,
            Some((name, value)) => {
                return Ok(value.parse::<u32>().is_ok_and(|n| self.set_number(name, n)));
            }
        }
        Ok(true)
    }
}

fn status_of(name: &str) -> Option<Status> {
    match name {
        "ended" => Some(Status::Ended),
        "rejected" => Some(Status::Rejected),
        "usage" => Some(Status::Usage),
        "refused" => Some(Status::Refused),
        "read_fault" => Some(Status::ReadFault),
        "write_fault" => Some(Status::WriteFault),
        _ => None,
    }
}

/// What a row says, if its line can be read.
fn row_of(alloc: Global, name: &str, rest: &str) -> Result<Option<Row>, AllocError> {
    let (status, fields) = cell(rest);
    let Some(status) = status_of(status) else {
        return Ok(None);
    };
    let mut row = Row {
        status,
        input: String::from_str(alloc, name)?,
        output: String::from_str(alloc, name)?,
        kind: Kind::Whole,
        fill: 0,
        byte: 0,
        ends: Ends::STEADY,
    };
    for field in fields.split_whitespace() {
        if !row.set(alloc, field)? {
            return Ok(None);
        }
    }
    Ok(Some(row))
}

/// The bytes that the row gives to the program, if its file can be read.
fn input_of<R: Files + AllocGlobal>(
    rt: &R,
    folder: &str,
    row: &Row,
) -> io::Result<Option<Vec<u8>>> {
    let name = format!(in rt.alloc(); "{folder}/{}.titan", row.input)?;
    let Ok(mut bytes) = fs::read(rt, name) else {
        return Ok(None);
    };
    for _ in 0..row.fill {
        bytes.push(row.byte)?;
    }
    Ok(Some(bytes))
}

/// How the row comes out for the words of this case.
fn words_finding(alloc: Global, row: &Row, case: Case<'_>) -> io::Result<Finding> {
    let (ended, text) = match row.kind {
        Kind::Whole => run(alloc, case.words, case.input, case.ends)?,
        Kind::Prefixes => return Ok(prefixes(alloc, case)?),
        Kind::Endless => run_endless(alloc, case.words, row.byte)?,
        Kind::InTurn => return in_turn(alloc, case.words, case.input, row.status),
    };
    match compared(ended, &text, row.status, case.wanted) {
        Finding::Right if row.is_steady() => Ok(migrated(alloc, case)?),
        finding => Ok(finding),
    }
}

/// How the row comes out for each list of words between commas.
fn finding<R: Files + AllocGlobal>(
    rt: &R,
    folder: &str,
    words: &str,
    row: &Row,
) -> io::Result<Finding> {
    let alloc = rt.alloc();
    let Some(input) = input_of(rt, folder, row)? else {
        return Ok(Finding::NoFile);
    };
    let name = format!(in alloc; "{folder}/{}.out", row.output)?;
    let Ok(wanted) = fs::read(rt, name) else {
        return Ok(Finding::NoFile);
    };
    for words in words.split(',') {
        let case = Case {
            words,
            input: &input,
            ends: row.ends,
            wanted: &wanted,
        };
        let finding = words_finding(alloc, row, case)?;
        if finding != Finding::Right {
            return Ok(finding);
        }
    }
    Ok(Finding::Right)
}

/// Runs the row of this line, and reports how it comes out.
pub fn row_finding<R: Files + Print + AllocGlobal>(
    rt: &R,
    folder: &str,
    tally: &mut Tally,
    line: &str,
) -> io::Result<()> {
    let (name, rest) = cell(line);
    let (words, rest) = cell(rest);
    let finding = match row_of(rt.alloc(), name, rest)? {
        Some(row) => finding(rt, folder, words, &row)?,
        None => Finding::NoRow,
    };
    tally.report(rt, name, finding)
}
