//! The store of learned clauses, of fixed size: a new one may take the place of one that was of no use of late, with a second chance for the others.

ghost use Rattle.std.specs.Prelude.{◌≡◌, ℕ, Bool, ◌<◌, ◌≤◌, true, false, List, length, take, All, IfOk, IfSome};
ghost use Rattle.clash_analysis.specs.Laws.{Passes};
ghost use Rattle.clash_analysis.specs.Learning.{IsLearned};
ghost use Rattle.clash_analysis.specs.declared.subjects.TheConstants.{SET_SUBJECTS};
ghost use Rattle.world_search.specs.Stores.{AreKept, IsStore, IsSlot, clause_of};
ghost use Rattle.world_search.specs.Words.{IsMetIn};

use crate::words::WordLiteral;
use std::alloc::{AllocError, Global};

/// The most literals of a clause that is kept.
pub const SLOT_LITERALS: usize = 32;

/// How many clauses may be kept.
pub const MAX_SLOTS: usize = 256;

/// Room for a clause.
#[derive(Clone, Copy)]
pub struct Slot {
    pub literals: [WordLiteral; SLOT_LITERALS],
    /// How many of these are the clause.
    pub long: usize,
}

/// What is noted of a slot. No promise hangs on it.
#[derive(Clone, Copy)]
pub struct Note {
    /// Whether its clause has narrowed a subject of late.
    pub of_use: bool,
    /// Two of its literals that could be true when it was looked at.
    pub one: usize,
    pub other: usize,
}

/// What a search has learned.
#[derive(Drop)]
pub struct Store {
    pub slots: Vec<Slot>,
    /// What is noted of each slot.
    pub notes: Vec<Note>,
    /// How many slots have a clause.
    pub kept: usize,
    /// The slot that is looked at next, where room is sought.
    pub next: usize,
    /// How often, weighted by how late, a clash has named each subject.
    pub activity: Vec<u64>,
    /// What a clash weighs now.
    pub weight: u64,
    /// How many clashes there were in this question.
    pub clashes: usize,
}

/// What is noted of a clause that is new.
const NEW: Note = Note {
    of_use: true,
    one: 0,
    other: 0,
};

/// Room for so many clauses over so many subjects. The error is out of memory.
pub fn store_for(alloc: Global, slots: usize, subjects: usize) -> Result<Store, AllocError>
    ensures { IfOk result (IsStore subjects) }
{
    let none = WordLiteral {
        subject: 0,
        values: 0,
    };
    let blank = Slot {
        literals: [none; SLOT_LITERALS],
        long: 0,
    };
    Ok(Store {
        slots: vec![in alloc; blank; slots]?,
        notes: vec![in alloc; NEW; slots]?,
        kept: 0,
        next: 0,
        activity: vec![in alloc; 0; subjects]?,
        weight: 1,
        clashes: 0,
    })
}

/// Keeps no clause any more.
pub fn forget(store: &mut Store)
    ensures kept { store.new.kept ≡ 0 }
    ensures store { (n : ℕ) → IsStore n store.old → IsStore n store.new }
{
    store.kept = 0;
    store.next = 0;
}

/// The learned sets as a clause. None comes where it has too many literals.
fn slot_of(learn: &[u64]) -> Option<Slot>
    requires small { length learn.now ≤ SET_SUBJECTS }
    ensures slot { IfSome result (IsSlot (length learn.now)) }
    ensures clause { IfSome result (λ s. (want : List ℕ → Bool) → IsLearned (Passes want) learn.now →
        IsMetIn (clause_of s) want) }
{
    let none = WordLiteral {
        subject: 0,
        values: 0,
    };
    let mut literals = [none; SLOT_LITERALS];
    let mut long = 0;
    for v in 0..learn.len() {
        if learn[v] != 0 {
            if long >= SLOT_LITERALS {
                return None;
            }
            literals[long] = WordLiteral {
                subject: v as u16,
                values: learn[v],
            };
            long += 1;
        }
    }
    Some(Slot { literals, long })
}

/// The next slot, in a round from this one on, that was of no use of late. Those that are passed over have to be of use again.
fn unused(notes: &mut [Note], from: usize) -> usize
    ensures long { length notes.new ≡ length notes.old }
{
    let mut at = from;
    for _ in 0..notes.len() {
        if at >= notes.len() {
            at = 0;
        }
        if !notes[at].of_use {
            return at;
        }
        notes[at].of_use = false;
        at += 1;
    }
    if at < notes.len() { at } else { 0 }
}

/// Puts a clause in the slot, which has one, or is the first that has none.
fn put_slot(store: &mut Store, at: usize, slot: Slot)
    requires marks { length store.old.notes.items ≡ length store.old.slots.items }
    requires place { at ≤ store.old.kept }
    requires room { at < length store.old.slots.items }
    ensures kept { (want : List ℕ → Bool) → IsMetIn (clause_of slot) want → AreKept store.old want →
        AreKept store.new want }
    ensures store { (n : ℕ) → IsSlot n slot → IsStore n store.old → IsStore n store.new }
{
    store.slots[at] = slot;
    store.notes[at] = NEW;
    store.next = at + 1;
    store.kept = store.kept.max(at + 1);
}

/// Keeps the learned sets as a clause, if it isn't too long.
pub fn keep(store: &mut Store, learn: &[u64])
    requires small { length learn.now ≤ SET_SUBJECTS }
    requires store { IsStore (length learn.now) store.old }
    ensures store { IsStore (length learn.now) store.new }
    ensures kept { (want : List ℕ → Bool) → IsLearned (Passes want) learn.now → AreKept store.old want →
        AreKept store.new want }
{
    let Some(slot) = slot_of(learn) else {
        return;
    };
    let at = if store.kept < store.slots.len() {
        store.kept
    } else {
        unused(&mut store.notes, store.next)
    };
    if at < store.slots.len() {
        put_slot(store, at, slot);
    }
}
