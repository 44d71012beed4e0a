//! How what comes out compares with what must come out.
ghost use Rattle.std.specs.Prelude.{◌≡◌, IsNone};

use std::fmt;
use titan_top::Status;

/// How a row comes out.
#[derive(Clone, Copy, Debug, PartialEq, Eq)]
pub enum Finding {
    /// As it must.
    Right,
    /// The line of the table isn't one that can be run.
    NoRow,
    /// A file that the row names can't be read.
    NoFile,
    /// The program ended so, and it must not.
    Ended(Status),
    /// A tick's line didn't go out right behind that tick.
    OutOfTurn,
    /// The text isn't migrated to version 2, or what it is migrated to isn't migrated to itself.
    NotMigrated,
    /// The text in version 2 runs otherwise.
    RunsOtherwise,
    /// The text differs from this byte on, counted from 0.
    Differs(usize),
}

impl fmt::Display for Finding {
    fn fmt<W: fmt::Write>(&self, f: &mut fmt::Formatter<W>) -> fmt::Result {
        match self {
            Finding::Right => write!(f, "ok"),
            Finding::NoRow => write!(f, "can't be read as a row"),
            Finding::NoFile => write!(f, "has a file that can't be read"),
            Finding::Ended(status) => write!(f, "ends with status {}", status.number()),
            Finding::OutOfTurn => write!(f, "prints a tick out of turn"),
            Finding::NotMigrated => write!(f, "isn't migrated, or not to itself"),
            Finding::RunsOtherwise => write!(f, "runs otherwise in version 2"),
            Finding::Differs(at) => write!(f, "differs at byte {at}"),
        }
    }
}

/// The first byte, counted from 0, at which the texts differ, if they do.
fn first_difference(text: &[u8], wanted: &[u8]) -> Option<usize>
    ensures { IsNone result → text.now ≡ wanted.now }
{
    if text == wanted {
        return None;
    }
    let same = text.iter().zip(wanted).take_while(|pair| pair.0 == pair.1);
    Some(same.count())
}

/// Compares how the program ended and what it wrote with what must be.
pub fn compared(ended: Status, text: &[u8], status: Status, wanted: &[u8]) -> Finding
    ensures { result ≡ Finding.Right → (ended ≡ status) × (text.now ≡ wanted.now) }
{
    match first_difference(text, wanted) {
        Some(at) => Finding::Differs(at),
        None if ended == status => Finding::Right,
        None => Finding::Ended(ended),
    }
}
