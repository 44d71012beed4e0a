//! Runs the top call over the rows of `rows.txt` and the lines of `lines.txt`, and if asked those of `long.txt`, in memory, and prints a line for each: what came
//! out is what must come out, or how it differs. The exit status is 0 only where no row differs.
#![tactic(auto)]

mod endless;
mod finding;
mod in_turn;
mod lines;
mod migrated;
mod numbered;
mod pieces;
mod prefixes;
mod rows;
mod run;
mod table;
mod tally;

use crate::lines::line_finding;
use crate::rows::row_finding;
use crate::table::is_row;
use crate::tally::Tally;
use std::process::ExitCode;
use std::rt::{Env, Files};
use std::{env, fs, io};

/// The folder of the tables: the one in which the program is run, or its folder `data`.
fn folder<R: Files>(rt: &R) -> &'static str {
    if fs::open(rt, "rows.txt").is_ok() {
        "."
    } else {
        "data"
    }
}

/// Whether the word `long` is on the command line: then the rows that take long are run as well.
fn is_long<R: Env + AllocGlobal>(rt: &R) -> bool {
    match env::args(rt) {
        Ok(args) => args.skip(1).any(|word| word.as_str() == "long"),
        Err(_) => false,
    }
}

/// Runs the rows of a table.
fn rows_of<R: Files + Print + AllocGlobal>(
    rt: &R,
    table: &str,
    tally: &mut Tally,
) -> io::Result<()> {
    let folder = folder(rt);
    let rows = fs::read_to_string(rt, format!(in rt.alloc(); "{folder}/{table}.txt")?)?;
    for line in rows.lines().filter(|line| is_row(line)) {
        row_finding(rt, folder, tally, line)?;
    }
    Ok(())
}

/// Runs the lines that are refused.
fn refused_lines<R: Files + Print + AllocGlobal>(rt: &R, tally: &mut Tally) -> io::Result<()> {
    let folder = folder(rt);
    let lines = fs::read_to_string(rt, format!(in rt.alloc(); "{folder}/lines.txt")?)?;
    for line in lines.lines().filter(|line| is_row(line)) {
        line_finding(rt, folder, tally, line)?;
    }
    Ok(())
}

/// Runs the tables.
fn tables<R: Files + Print + Env + AllocGlobal>(rt: &R) -> io::Result<Tally> {
    let mut tally = Tally::new();
    rows_of(rt, "rows", &mut tally)?;
    refused_lines(rt, &mut tally)?;
    if is_long(rt) {
        rows_of(rt, "long", &mut tally)?;
    }
    println!(rt; "{tally}")?;
    Ok(tally)
}

fn main(rt: HostRuntime) -> ExitCode {
    match tables(&rt) {
        Ok(tally) => ExitCode::from(u8::from(!tally.is_right())),
        Err(_) => ExitCode::from(1),
    }
}
