//! Conflict analysis: the clause that is learned from a clash at its first unique implication point.

ghost use Rattle.std.specs.Prelude.{◌≡◌, ◌≢◌, ℕ, Bool, true, false, ◌+◌, ◌-◌, ◌<◌, ◌≤◌, List, length, slice_index, bit_and, take, All, IfSome};
ghost use Rattle.std.specs.Bool.{OnFalse, OnTrue};
ghost use Rattle.cca_base.specs.Sets.{has};
ghost use Rattle.cca_base.specs.declared.cube.Pair.{Pair};
ghost use Rattle.clash_analysis.specs.Clashes.{AreInside, IsClash};
ghost use Rattle.clash_analysis.specs.Learning.{SharesNone};
ghost use Rattle.clash_analysis.specs.Levels.{AreLevels, IsAnalysed, IsClimbed, IsPoint};
ghost use Rattle.clash_analysis.specs.Subjects.{is_in};
ghost use Rattle.clash_analysis.specs.declared.subjects.TheConstants.{SET_SUBJECTS};

use crate::blaming::{blame, take_back};
use crate::entry::Entry;
use crate::level::learn_from;
use crate::lower::is_apart;
use crate::subjects::SubjectSet;

/// A place where a clause is learned: what is left of the trail and of the levels, and the subject that it narrows.
#[derive(Clone, Copy)]
pub struct Point {
    pub left: usize,
    pub level: usize,
    pub subject: u16,
}

/// Whether some of the entry's former values are learned, and with the entries before it on its level undone too, the learned sets are
/// apart but of its subject.
fn is_learned(learn: &[u64], back: &[Entry], e: &Entry) -> bool
    requires inside { AreInside (length learn.now) back.now }
    requires subject { e.now.subject < length learn.now }
    ensures yes { OnTrue result (((a : ℕ) × (has e.now.before a ≡ true)
        × (has (slice_index learn.now e.now.subject) a ≡ true)) × All (SharesNone learn.now e.now.subject) back.now) }
    ensures no { OnFalse result (bit_and (slice_index learn.now e.now.subject) e.now.before ≢ 0 → 0 < length back.now) }
{
    if learn[e.subject as usize] & e.before == 0 {
        return false;
    }
    if back.len() == 0 {
        return true;
    }
    is_apart(learn, back, e.subject)
}

/// Goes back along a trail, to a place where a clause is learned; or to the start, and the blamed subjects' pairs have no world.
fn climb(
    start: &[u64],
    dom: &mut [u64],
    learn: &mut [u64],
    trail: &[Entry],
    long: usize,
    marks: &[u16],
    levels: usize,
    blamed: &mut SubjectSet,
) -> Option<Point>
    requires start { length start.now ≡ length dom.old }
    requires learn { length learn.old ≡ length dom.old }
    requires small { length dom.old ≤ SET_SUBJECTS }
    requires levels { AreLevels marks.now levels trail.now long }
    requires inside { AreInside (length dom.old) (take long trail.now) }
    ensures dom { length dom.new ≡ length dom.old }
    ensures learn { length learn.new ≡ length learn.old }
    ensures lower { IfSome result (λ p. p.level ≤ levels) }
    ensures point { IfSome result (IsPoint (length dom.old) marks.now trail.now learn.new) }
    ensures climbed { (want : List ℕ → Bool) (pairs : List Pair) →
        IsClash want pairs start.now (take long trail.now) dom.old (is_in blamed.old) learn.old →
        (0 < levels → (v : ℕ) → is_in blamed.old v ≡ false) →
        IsClimbed want pairs start.now trail.now dom.new learn.new (is_in blamed.new) result }
{
    let mut left = long;
    let mut level = levels;
    'levels: while level > 0 {
        let from = marks[level - 1] as usize;
        left -= 1;
        let e = trail[left];
        let subject = e.subject;
        if is_learned(learn, &trail[from..left], &e) {
            dom[subject as usize] = e.before;
            return Some(Point {
                left,
                level,
                subject,
            });
        }
        take_back(start, dom, learn, &e, blamed);
        if left == from {
            level -= 1;
        }
    }
    blame(start, dom, learn, &trail[..left], blamed);
    None
}

/// Learns from a clash: the level on which a subject is narrower now for the clause that is learned, behind whose mark the trail ends; or
/// none, and the blamed subjects' pairs have no world.
pub fn analyse(
    start: &[u64],
    dom: &mut [u64],
    learn: &mut [u64],
    trail: &mut [Entry],
    long: usize,
    marks: &[u16],
    levels: usize,
    blamed: &mut SubjectSet,
) -> Option<usize>
    requires start { length start.now ≡ length dom.old }
    requires learn { length learn.old ≡ length dom.old }
    requires small { length dom.old ≤ SET_SUBJECTS }
    requires levels { AreLevels marks.now levels trail.old long }
    requires inside { AreInside (length dom.old) (take long trail.old) }
    ensures dom { length dom.new ≡ length dom.old }
    ensures learn { length learn.new ≡ length learn.old }
    ensures trail { length trail.new ≡ length trail.old }
    ensures less { IfSome result (λ level. level < levels) }
    ensures kept { IfSome result (λ level. take (slice_index marks.now level) trail.new
        ≡ take (slice_index marks.now level) trail.old) }
    ensures levels { IfSome result (λ level. AreLevels marks.now level trail.new (slice_index marks.now level + 1)) }
    ensures inside { IfSome result (λ level. AreInside (length dom.old) (take (slice_index marks.now level + 1) trail.new)) }
    ensures analysed { (want : List ℕ → Bool) (pairs : List Pair) →
        IsClash want pairs start.now (take long trail.old) dom.old (is_in blamed.old) learn.old →
        (0 < levels → (v : ℕ) → is_in blamed.old v ≡ false) →
        IsAnalysed want pairs start.now marks.now trail.new dom.new learn.new (is_in blamed.new) result }
{
    let point = climb(start, dom, learn, trail, long, marks, levels, blamed)?;
    Some(learn_from(
        dom,
        learn,
        trail,
        point.left,
        marks,
        point.level,
        point.subject,
    ))
}
