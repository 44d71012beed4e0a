//! A learned clause on a lower level.

ghost use Rattle.std.specs.Prelude.{◌≡◌, ◌≢◌, ℕ, Bool, true, false, ◌<◌, ◌≤◌, ◌++◌, [], ◌∷◌, List, length, slice_index, All};
ghost use Rattle.std.specs.Bool.{OnTrue};
ghost use Rattle.cca_base.specs.Sets.{has};
ghost use Rattle.cca_base.specs.declared.cube.Pair.{Pair};
ghost use Rattle.clash_analysis.specs.Clashes.{AreInside};
ghost use Rattle.clash_analysis.specs.Laws.{Passes};
ghost use Rattle.clash_analysis.specs.Learning.{IsLearned, SharesNone};
ghost use Rattle.clash_analysis.specs.Levels.{IsDerived};
ghost use Rattle.clash_analysis.specs.Subjects.{is_in};
ghost use Rattle.clash_analysis.specs.Trails.{AreApartBut, IsTrail};
ghost use Rattle.clash_analysis.specs.declared.entry.Entry.{Entry};
ghost use Rattle.clash_analysis.specs.declared.subjects.TheConstants.{SET_SUBJECTS};

use crate::entry::{Entry, Why};
use crate::subjects::{SubjectSet, no_subject, with_subject};

/// Whether the entries can be undone with the learned sets apart but of this subject.
pub fn is_apart(learn: &[u64], back: &[Entry], u: u16) -> bool
    requires { AreInside (length learn.now) back.now }
    ensures { OnTrue result (All (SharesNone learn.now u) back.now) }
{
    for i in 0..back.len() {
        let e = &back[i];
        if e.subject != u && learn[e.subject as usize] & e.before != 0 {
            return false;
        }
    }
    true
}

/// Undoes the entries, the last ones of the trail.
pub fn undo(dom: &mut [u64], back: &[Entry])
    requires { AreInside (length dom.old) back.now }
    ensures long { length dom.new ≡ length dom.old }
    ensures trail { (want : List ℕ → Bool) (pairs : List Pair) (start : List ℕ) (front : List Entry) →
        IsTrail (Passes want) pairs start (front ++ back.now) dom.old →
        IsTrail (Passes want) pairs start front dom.new }
{
    for i in (0..back.len()).rev() {
        let e = &back[i];
        dom[e.subject as usize] = e.before;
    }
}

/// The subjects of the learned sets but one.
fn others(learn: &[u64], u: u16) -> SubjectSet
    requires { length learn.now ≤ SET_SUBJECTS }
    ensures all { (v a : ℕ) → v ≢ u → has (slice_index learn.now v) a ≡ true → is_in result v ≡ true }
    ensures inside { (v : ℕ) → is_in result v ≡ true → v < length learn.now }
{
    let mut set = no_subject();
    for v in 0..learn.len() {
        if learn[v] != 0 && v != u as usize {
            set = with_subject(&set, v as u16);
        }
    }
    set
}

/// Leaves nothing learned.
pub fn clear(learn: &mut [u64])
    ensures long { length learn.new ≡ length learn.old }
    ensures none { (v : ℕ) → slice_index learn.new v ≡ 0 }
{
    for v in 0..learn.len() {
        learn[v] = 0;
    }
}

/// Narrows the subject to what is learned of it, for what is learned of the others.
pub fn narrow_learned(dom: &mut [u64], learn: &[u64], u: u16) -> Entry
    requires learn { length learn.now ≡ length dom.old }
    requires small { length dom.old ≤ SET_SUBJECTS }
    requires inside { u < length dom.old }
    ensures dom { length dom.new ≡ length dom.old }
    ensures subject { result.subject ≡ u }
    ensures why { IsDerived result.why }
    ensures trail { (want : List ℕ → Bool) (pairs : List Pair) (start : List ℕ) (trail : List Entry) →
        IsTrail (Passes want) pairs start trail dom.old →
        IsLearned (Passes want) learn.now →
        AreApartBut u dom.old learn.now →
        ((a : ℕ) × (has (slice_index dom.old u) a ≡ true) × (has (slice_index learn.now u) a ≡ true)) →
        ((a : ℕ) × (has (slice_index dom.old u) a ≡ true) × (has (slice_index learn.now u) a ≡ false)) →
        IsTrail (Passes want) pairs start (trail ++ result ∷ []) dom.new }
{
    let at = u as usize;
    let because = others(learn, u);
    let e = Entry {
        subject: u,
        before: dom[at],
        kept: learn[at],
        why: Why::Because(because),
    };
    dom[at] &= e.kept;
    e
}
