//! Unit propagation in one clause: where one literal alone can still be true, its subject keeps that literal's values alone.

ghost use Rattle.std.specs.Prelude.{◌≡◌, ◌≢◌, ℕ, ◌<◌, ◌≤◌, true, length, slice_index, slice_index_or, bit_and, IfSome};
ghost use Rattle.clash_analysis.specs.Learning.{IsClauseOf};
ghost use Rattle.clash_analysis.specs.Subjects.{is_in};
ghost use Rattle.clash_analysis.specs.declared.subjects.TheConstants.{SET_SUBJECTS};
ghost use Rattle.world_search.specs.Followed.{IsFollowed};
ghost use Rattle.world_search.specs.Words.{AreInside, IsMetIn, OthersOut, literals_of};
ghost use Rattle.world_search.specs.Works.{IsClear, IsReady};
ghost use Rattle.world_search.specs.declared.words.WordLiteral.{WordLiteral};

use crate::words::WordLiteral;
use crate::work::{Work, narrow};
use clash_analysis::{SubjectSet, Why, no_subject, with_subject};

/// The place of the one literal that can be true, or the length where none can. None comes where several can.
fn last_literal(literals: &[WordLiteral], dom: &[u64]) -> Option<usize>
    requires { AreInside (length dom.now) literals.now }
    ensures place { IfSome result (λ k. k ≤ length literals.now) }
    ensures others { IfSome result (λ k. OthersOut dom.now literals.now k) }
    ensures open { IfSome result (λ k. (w : WordLiteral) → k < length literals.now →
        bit_and (slice_index dom.now (slice_index_or literals.now k w).subject) (slice_index_or literals.now k w).values ≢ 0) }
{
    let mut found = literals.len();
    for (i, literal) in literals.iter().enumerate() {
        if dom[literal.subject as usize] & literal.values != 0 {
            if found < literals.len() {
                return None;
            }
            found = i;
        }
    }
    Some(found)
}

/// The subjects of all literals but the one at the place.
fn others(literals: &[WordLiteral], skip: usize, subjects: usize) -> SubjectSet
    requires inside { AreInside subjects literals.now }
    requires small { subjects ≤ SET_SUBJECTS }
    ensures all { (i : ℕ) (w : WordLiteral) → i < length literals.now → i ≢ skip →
        is_in result (slice_index_or literals.now i w).subject ≡ true }
    ensures inside { (v : ℕ) → is_in result v ≡ true → v < subjects }
{
    let mut all = no_subject();
    for (i, literal) in literals.iter().enumerate() {
        if i != skip {
            all = with_subject(&all, literal.subject);
        }
    }
    all
}

/// Learns the clause, where nothing is learned yet.
pub fn learn_clause(literals: &[WordLiteral], start: &[u64], learn: &mut [u64])
    requires inside { AreInside (length start.now) literals.now }
    requires long { length start.now ≡ length learn.old }
    requires none { (v : ℕ) → slice_index learn.old v ≡ 0 }
    ensures long { length learn.new ≡ length learn.old }
    ensures clause { IsClauseOf start.now (literals_of literals.now) learn.new }
{
    for literal in literals {
        let at = literal.subject as usize;
        learn[at] |= literal.values & start[at];
    }
}

/// Looks at a clause. True comes where it can't be true any more: it is learned.
pub fn visit_clause(literals: &[WordLiteral], work: &mut Work) -> bool
    requires ready { IsReady work.old }
    requires inside { AreInside (length work.old.dom.items) literals.now }
    requires clear { IsClear work.old }
    ensures followed { IsFollowed (IsMetIn literals.now) work.old work.new result }
    ensures head { work.new.head ≡ work.old.head }
{
    let Some(place) = last_literal(literals, &work.dom) else {
        return false;
    };
    if place == literals.len() {
        learn_clause(literals, &work.start, &mut work.learn);
        return true;
    }
    let literal = literals[place];
    let left = work.dom[literal.subject as usize];
    if left & !literal.values != 0 {
        let because = others(literals, place, work.dom.len());
        narrow(work, literal.subject, literal.values, Why::Because(because));
    }
    false
}
