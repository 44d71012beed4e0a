//! An entry of the trail: what a search took from a subject, and why.

use crate::subjects::SubjectSet;

/// Why values were taken from a subject.
#[derive(Clone, Copy)]
pub enum Why {
    /// The question says so.
    Assumed,
    /// It is tried.
    Chosen,
    /// It follows from what the subjects of the set had left at that time.
    Because(SubjectSet),
}

/// The subject had the values `before`, and then those of them that are in `kept`.
#[derive(Clone, Copy)]
pub struct Entry {
    pub subject: u16,
    pub before: u64,
    pub kept: u64,
    pub why: Why,
}
