//! Counts rows, and prints how each comes out.
use crate::finding::Finding;
use std::{fmt, io};

/// How many rows there were, and how many of them came out as they must.
#[derive(Clone, Copy, Debug)]
pub struct Tally {
    all: u64,
    right: u64,
}

impl Tally {
    /// No row yet.
    pub fn new() -> Tally {
        Tally { all: 0, right: 0 }
    }

    /// Whether all rows came out as they must.
    pub fn is_right(&self) -> bool {
        self.right == self.all
    }

    /// Prints how a row comes out, and counts it.
    pub fn report(&mut self, rt: &impl Print, row: &str, finding: Finding) -> io::Result<()> {
        self.all = self.all.saturating_add(1);
        if finding == Finding::Right {
            self.right = self.right.saturating_add(1);
        }
        println!(rt; "{row} {finding}")
    }
}

impl fmt::Display for Tally {
    fn fmt<W: fmt::Write>(&self, f: &mut fmt::Formatter<W>) -> fmt::Result {
        write!(f, "{} of {} rows ok", self.right, self.all)
    }
}
