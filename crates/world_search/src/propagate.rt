//! Unit propagation: each clause that names a subject of the trail is looked at, and those beside and those learned, until nothing comes of it.

ghost use Rattle.std.specs.Prelude.{◌≡◌, ℕ, Bool, ◌<◌, ◌≤◌, ◌++◌, false, List, length, All};
ghost use Rattle.world_search.specs.Followed.{IsFollowed};
ghost use Rattle.world_search.specs.Stores.{AreSlotsMetIn, IsSlot};
ghost use Rattle.world_search.specs.Asked.{AreAllMetIn};
ghost use Rattle.world_search.specs.Words.{AreInside, AreMetIn, IsClauseInside, IsMetIn};
ghost use Rattle.world_search.specs.Works.{IsClear, IsReady};

use crate::rules::{Rules, places_at};
use crate::store::{Note, Slot};
use crate::visit::visit_clause;
use crate::words::{WordClause, WordLiteral};
use crate::work::Work;

/// Looks at the clauses at some places. True comes where one can't be true any more: it is learned.
fn visit_places(clauses: &[WordClause], places: &[usize], work: &mut Work) -> bool
    requires ready { IsReady work.old }
    requires inside { All (IsClauseInside (length work.old.dom.items)) clauses.now }
    requires clear { IsClear work.old }
    ensures followed { IsFollowed (AreMetIn clauses.now) work.old work.new result }
    ensures head { work.new.head ≡ work.old.head }
{
    for place in places {
        if *place < clauses.len() && visit_clause(clauses[*place].literals.as_slice(), work) {
            return true;
        }
    }
    false
}

/// Looks at all clauses once.
fn visit_all(clauses: &[WordClause], work: &mut Work) -> bool
    requires ready { IsReady work.old }
    requires inside { All (IsClauseInside (length work.old.dom.items)) clauses.now }
    requires clear { IsClear work.old }
    ensures followed { IsFollowed (AreMetIn clauses.now) work.old work.new result }
    ensures head { work.new.head ≡ work.old.head }
{
    for clause in clauses {
        if visit_clause(clause.literals.as_slice(), work) {
            return true;
        }
    }
    false
}

/// Looks at the clauses that name a subject of some literal.
fn visit_named(rules: &Rules, literals: &[WordLiteral], work: &mut Work) -> bool
    requires ready { IsReady work.old }
    requires inside { All (IsClauseInside (length work.old.dom.items)) rules.now.clauses.items }
    requires clear { IsClear work.old }
    ensures { IsFollowed (AreMetIn rules.now.clauses.items) work.old work.new result }
{
    for literal in literals {
        let places = places_at(rules, literal.subject);
        if visit_places(rules.clauses.as_slice(), places, work) {
            return true;
        }
    }
    false
}

/// Looks at the clauses that name a subject of those beside.
fn visit_near(rules: &Rules, beside: &[WordClause], work: &mut Work) -> bool
    requires ready { IsReady work.old }
    requires inside { All (IsClauseInside (length work.old.dom.items)) rules.now.clauses.items }
    requires clear { IsClear work.old }
    ensures { IsFollowed (AreMetIn rules.now.clauses.items) work.old work.new result }
{
    for clause in beside {
        if visit_named(rules, clause.literals.as_slice(), work) {
            return true;
        }
    }
    false
}

/// Follows the trail to its end. True comes where a clause can't be true any more: it is learned.
fn follow_trail(rules: &Rules, work: &mut Work) -> bool
    requires ready { IsReady work.old }
    requires inside { All (IsClauseInside (length work.old.dom.items)) rules.now.clauses.items }
    requires clear { IsClear work.old }
    ensures followed { IsFollowed (AreMetIn rules.now.clauses.items) work.old work.new result }
    ensures end { result ≡ false → work.new.long ≤ work.new.head }
{
    'following: while work.head < work.long {
        let subject = work.trail[work.head].subject;
        work.head += 1;
        let places = places_at(rules, subject);
        if visit_places(rules.clauses.as_slice(), places, work) {
            return true;
        }
    }
    false
}

/// Looks at all clauses once, or at those that name a subject of the ones beside, if there are these.
fn visit_first(rules: &Rules, near: Option<&[WordClause]>, work: &mut Work) -> bool
    requires ready { IsReady work.old }
    requires inside { All (IsClauseInside (length work.old.dom.items)) rules.now.clauses.items }
    requires clear { IsClear work.old }
    ensures { IsFollowed (AreMetIn rules.now.clauses.items) work.old work.new result }
{
    match near {
        None => visit_all(rules.clauses.as_slice(), work),
        Some(beside) => visit_near(rules, beside, work),
    }
}

/// The same, and what comes of it is followed.
pub fn follow_first(rules: &Rules, near: Option<&[WordClause]>, work: &mut Work) -> bool
    requires ready { IsReady work.old }
    requires inside { All (IsClauseInside (length work.old.dom.items)) rules.now.clauses.items }
    requires clear { IsClear work.old }
    ensures { IsFollowed (AreMetIn rules.now.clauses.items) work.old work.new result }
{
    if visit_first(rules, near, work) {
        return true;
    }
    follow_trail(rules, work)
}

/// Whether the literal at the place can be true.
fn is_open(literals: &[WordLiteral], dom: &[u64], place: usize) -> bool
    requires { AreInside (length dom.now) literals.now }
{
    place < literals.len() && dom[literals[place].subject as usize] & literals[place].values != 0
}

/// Whether two literals can be true, so that nothing follows. They are noted, and are the first that are tried the next time.
fn are_two_open(literals: &[WordLiteral], dom: &[u64], note: &mut Note) -> bool
    requires { AreInside (length dom.now) literals.now }
{
    if note.one != note.other
        && is_open(literals, dom, note.one)
        && is_open(literals, dom, note.other)
    {
        return true;
    }
    let mut found = literals.len();
    for place in 0..literals.len() {
        if is_open(literals, dom, place) {
            if found < literals.len() {
                note.one = found;
                note.other = place;
                return true;
            }
            found = place;
        }
    }
    false
}

/// Looks at the clause of a slot, and notes whether it narrows a subject.
fn visit_slot(literals: &[WordLiteral], note: &mut Note, work: &mut Work) -> bool
    requires ready { IsReady work.old }
    requires inside { AreInside (length work.old.dom.items) literals.now }
    requires clear { IsClear work.old }
    ensures followed { IsFollowed (IsMetIn literals.now) work.old work.new result }
    ensures head { work.new.head ≡ work.old.head }
{
    if are_two_open(literals, &work.dom, note) {
        return false;
    }
    let before = work.long;
    let is_false = visit_clause(literals, work);
    note.of_use = note.of_use || is_false || work.long > before;
    is_false
}

/// Looks at the clauses of the slots once.
fn visit_slots(slots: &[Slot], notes: &mut [Note], work: &mut Work) -> bool
    requires ready { IsReady work.old }
    requires slots { All (IsSlot (length work.old.dom.items)) slots.now }
    requires notes { length slots.now ≤ length notes.old }
    requires clear { IsClear work.old }
    ensures followed { IsFollowed (AreSlotsMetIn slots.now) work.old work.new result }
    ensures head { work.new.head ≡ work.old.head }
    ensures notes { length notes.new ≡ length notes.old }
{
    for (k, slot) in slots.iter().enumerate() {
        if visit_slot(&slot.literals[..slot.long], &mut notes[k], work) {
            return true;
        }
    }
    false
}

/// Follows the trail to its end, and looks at the clauses beside and at those of the slots, again and again until nothing comes of it.
pub fn follow_all(
    rules: &Rules,
    beside: &[WordClause],
    slots: &[Slot],
    notes: &mut [Note],
    work: &mut Work,
) -> bool
    requires ready { IsReady work.old }
    requires inside { All (IsClauseInside (length work.old.dom.items)) rules.now.clauses.items }
    requires beside { All (IsClauseInside (length work.old.dom.items)) beside.now }
    requires slots { All (IsSlot (length work.old.dom.items)) slots.now }
    requires notes { length slots.now ≤ length notes.old }
    requires clear { IsClear work.old }
    ensures followed { IsFollowed (AreAllMetIn (rules.now.clauses.items ++ beside.now) slots.now) work.old work.new result }
    ensures notes { length notes.new ≡ length notes.old }
{
    'again: loop {
        if follow_trail(rules, work) || visit_all(beside, work) || visit_slots(slots, notes, work) {
            return true;
        }
        if work.head >= work.long {
            return false;
        }
    }
}
