//! Resolution: the reason of an entry in place of the values that it took.

ghost use Rattle.std.specs.Prelude.{◌≡◌, ℕ, ◌<◌, ◌≤◌, ◌||◌, ◌&&◌, not, length, slice_index};
ghost use Rattle.cca_base.specs.Sets.{has};
ghost use Rattle.clash_analysis.specs.Learning.{IsResolved};
ghost use Rattle.clash_analysis.specs.Subjects.{is_in};
ghost use Rattle.clash_analysis.specs.declared.subjects.TheConstants.{SET_SUBJECTS};

use crate::entry::{Entry, Why};
use crate::subjects::{SubjectSet, has_subject};

/// What is learned of a subject, with the values that were taken from it besides.
fn with_taken(learn: u64, start: u64, dom: u64) -> u64
    ensures { (a : ℕ) → has result a ≡ (has learn a || (has start a && not (has dom a))) }
{
    learn | (start & !dom)
}

/// Adds what was taken from the subjects of the set.
fn add_taken(start: &[u64], dom: &[u64], learn: &mut [u64], set: &SubjectSet)
    requires start { length start.now ≡ length learn.old }
    requires dom { length dom.now ≡ length learn.old }
    requires small { length learn.old ≤ SET_SUBJECTS }
    ensures long { length learn.new ≡ length learn.old }
    ensures values { (v a : ℕ) → v < length learn.old → has (slice_index learn.new v) a
        ≡ (has (slice_index learn.old v) a || (is_in set.now v && (has (slice_index start.now v) a && not (has (slice_index dom.now v) a)))) }
{
    for v in 0..learn.len() {
        if has_subject(set, v as u16) {
            learn[v] = with_taken(learn[v], start[v], dom[v]);
        }
    }
}

/// Puts the entry's reason in place of the values that it took.
pub fn resolve(start: &[u64], dom: &[u64], learn: &mut [u64], e: &Entry)
    requires start { length start.now ≡ length learn.old }
    requires dom { length dom.now ≡ length learn.old }
    requires small { length learn.old ≤ SET_SUBJECTS }
    requires inside { e.now.subject < length learn.old }
    ensures { IsResolved start.now dom.now e.now learn.old learn.new }
{
    let u = e.subject as usize;
    learn[u] &= e.kept;
    if let Why::Because(set) = &e.why {
        add_taken(start, dom, learn, set);
    }
}
