//! The lowest level on which a learned clause narrows a subject.

ghost use Rattle.std.specs.Prelude.{◌≡◌, ◌≢◌, ℕ, Bool, true, false, ◌+◌, ◌-◌, ◌<◌, ◌≤◌, List, length, slice_index, take, drop, All};
ghost use Rattle.cca_base.specs.Sets.{has};
ghost use Rattle.cca_base.specs.declared.cube.Pair.{Pair};
ghost use Rattle.clash_analysis.specs.Clashes.{AreInside};
ghost use Rattle.clash_analysis.specs.Laws.{Passes};
ghost use Rattle.clash_analysis.specs.Learning.{IsLearned, SharesNone};
ghost use Rattle.clash_analysis.specs.Levels.{AreWithin, IsWritten};
ghost use Rattle.clash_analysis.specs.Trails.{AreApartBut, IsTrail};
ghost use Rattle.clash_analysis.specs.declared.subjects.TheConstants.{SET_SUBJECTS};

use crate::entry::Entry;
use crate::lower::{is_apart, narrow_learned, undo};

/// The lowest level from which on all entries can be undone with the learned sets apart but of this subject.
fn lowest(learn: &[u64], trail: &[Entry], marks: &[u16], levels: usize, u: u16) -> usize
    requires some { 0 < levels }
    requires levels { levels ≤ length marks.now }
    requires marks { AreWithin marks.now levels (length trail.now) }
    requires inside { AreInside (length learn.now) trail.now }
    requires first { All (SharesNone learn.now u) (drop (slice_index marks.now (levels - 1)) trail.now) }
    ensures less { result < levels }
    ensures apart { All (SharesNone learn.now u) (drop (slice_index marks.now result) trail.now) }
{
    let mut level = levels - 1;
    'lowering: while level > 0 && is_apart(learn, &trail[marks[level - 1] as usize..], u) {
        level -= 1;
    }
    level
}

/// Undoes the levels from the lowest one on, and narrows the subject there to what is learned of it. Says which level that is: the
/// trail ends behind its mark.
pub fn learn_from(
    dom: &mut [u64],
    learn: &[u64],
    trail: &mut [Entry],
    long: usize,
    marks: &[u16],
    levels: usize,
    u: u16,
) -> usize
    requires learn { length learn.now ≡ length dom.old }
    requires small { length dom.old ≤ SET_SUBJECTS }
    requires subject { u < length dom.old }
    requires room { long < length trail.old }
    requires some { 0 < levels }
    requires levels { levels ≤ length marks.now }
    requires marks { AreWithin marks.now levels long }
    requires inside { AreInside (length dom.old) (take long trail.old) }
    requires first { All (SharesNone learn.now u) (drop (slice_index marks.now (levels - 1)) (take long trail.old)) }
    ensures less { result < levels }
    ensures dom { length dom.new ≡ length dom.old }
    ensures long { length trail.new ≡ length trail.old }
    ensures written { IsWritten trail.old (slice_index marks.now result) (length dom.old) trail.new }
    ensures trail { (want : List ℕ → Bool) (pairs : List Pair) (start : List ℕ) →
        IsTrail (Passes want) pairs start (take long trail.old) dom.old →
        IsLearned (Passes want) learn.now →
        AreApartBut u dom.old learn.now →
        ((a : ℕ) × (has (slice_index dom.old u) a ≡ true) × (has (slice_index learn.now u) a ≡ true)) →
        ((a : ℕ) × (has (slice_index dom.old u) a ≡ true) × (has (slice_index learn.now u) a ≡ false)) →
        IsTrail (Passes want) pairs start (take (slice_index marks.now result + 1) trail.new) dom.new }
{
    let level = lowest(learn, &trail[..long], marks, levels, u);
    let to = marks[level] as usize;
    undo(dom, &trail[to..long]);
    trail[to] = narrow_learned(dom, learn, u);
    level
}
