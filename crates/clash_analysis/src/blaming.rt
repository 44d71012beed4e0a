//! Pairs of the question that are to blame that there is no world.

ghost use Rattle.std.specs.Prelude.{◌≡◌, ◌≢◌, ℕ, Bool, ◌<◌, ◌≤◌, ◌++◌, [], ◌∷◌, List, length, slice_index, bit_and};
ghost use Rattle.cca_base.specs.declared.cube.Pair.{Pair};
ghost use Rattle.clash_analysis.specs.Clashes.{AreInside, AreNoChoices, IsClash, IsNoChoice, NoneHas};
ghost use Rattle.clash_analysis.specs.Levels.{IsDerived};
ghost use Rattle.clash_analysis.specs.Subjects.{is_in};
ghost use Rattle.clash_analysis.specs.declared.entry.Entry.{Entry};
ghost use Rattle.clash_analysis.specs.declared.subjects.TheConstants.{SET_SUBJECTS};

use crate::entry::{Entry, Why};
use crate::resolving::resolve;
use crate::subjects::{SubjectSet, with_subject};

/// Takes the entry back, the last one of the trail. If some of its former values are learned, its reason takes their place, and if the
/// question says it, its subject is blamed.
pub fn take_back(
    start: &[u64],
    dom: &mut [u64],
    learn: &mut [u64],
    e: &Entry,
    blamed: &mut SubjectSet,
)
    requires start { length start.now ≡ length dom.old }
    requires learn { length learn.old ≡ length dom.old }
    requires small { length dom.old ≤ SET_SUBJECTS }
    requires inside { e.now.subject < length dom.old }
    ensures dom { length dom.new ≡ length dom.old }
    ensures learn { length learn.new ≡ length learn.old }
    ensures still { (bit_and (slice_index learn.old e.now.subject) e.now.before ≢ 0 → IsDerived e.now.why) →
        blamed.new ≡ blamed.old }
    ensures clash { (want : List ℕ → Bool) (pairs : List Pair) (trail : List Entry) →
        (bit_and (slice_index learn.old e.now.subject) e.now.before ≢ 0 → IsNoChoice e.now.why) →
        IsClash want pairs start.now (trail ++ e.now ∷ []) dom.old (is_in blamed.old) learn.old →
        IsClash want pairs start.now trail dom.new (is_in blamed.new) learn.new }
{
    let u = e.subject as usize;
    dom[u] = e.before;
    if learn[u] & e.before != 0 {
        if let Why::Assumed = e.why {
            *blamed = with_subject(blamed, e.subject);
        }
        resolve(start, dom, learn, e);
    }
}

/// Takes the whole trail back. The pairs of the blamed subjects have no world.
pub fn blame(
    start: &[u64],
    dom: &mut [u64],
    learn: &mut [u64],
    trail: &[Entry],
    blamed: &mut SubjectSet,
)
    requires start { length start.now ≡ length dom.old }
    requires learn { length learn.old ≡ length dom.old }
    requires small { length dom.old ≤ SET_SUBJECTS }
    requires inside { AreInside (length dom.old) trail.now }
    ensures { (want : List ℕ → Bool) (pairs : List Pair) → AreNoChoices trail.now →
        IsClash want pairs start.now trail.now dom.old (is_in blamed.old) learn.old →
        NoneHas want pairs (is_in blamed.new) }
{
    for i in (0..trail.len()).rev() {
        take_back(start, dom, learn, &trail[i], blamed);
    }
}
