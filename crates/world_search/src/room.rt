//! The sizes of a workspace's buffers.

ghost use Rattle.std.specs.Prelude.{◌≡◌, ◌-◌, ◌≤◌, length, sum_by, All, IfOk};
ghost use Rattle.cca_base.specs.declared.limits.TheConstants.{MAX_CHOICES};
ghost use Rattle.world_search.specs.Works.{IsShaped};
ghost use Rattle.clash_analysis.specs.declared.subjects.TheConstants.{SET_SUBJECTS};
ghost use Rattle.world_search.specs.declared.work.TheConstants.{MAX_ROOM};

use crate::store::MAX_SLOTS;
use crate::work::Work;
use clash_analysis::{Entry, Why};
use clause_form::Sizes;
use std::alloc::{AllocError, Global};

/// How many learned clauses may be kept for each entry of a trail, so that a small model makes a small store.
const SLOTS_EACH: usize = 4;

/// How large the buffers of a workspace are.
#[derive(Clone, Copy)]
pub struct Room {
    /// How many subjects there are.
    pub subjects: usize,
    /// The most entries of a trail: all values of all subjects, but one of each.
    pub entries: usize,
    /// How many learned clauses may be kept.
    pub slots: usize,
}

/// The room that subjects of these sizes need, with at most so many learned clauses.
pub fn room_for(sizes: &Sizes, learned: usize) -> Room
    requires { length sizes.now ≤ SET_SUBJECTS }
    ensures subjects { result.subjects ≡ length sizes.now }
    ensures entries { result.entries ≡ sum_by (λ n. n - 1) sizes.now }
    ensures few { result.entries ≤ MAX_ROOM }
    ensures small { All (λ n. n ≤ MAX_CHOICES) sizes.now }
{
    let mut entries = 0;
    for size in sizes.as_slice() {
        entries += (*size as usize).saturating_sub(1);
    }
    Room {
        subjects: sizes.len(),
        entries,
        slots: learned.min(MAX_SLOTS).min(SLOTS_EACH * entries),
    }
}

/// Buffers with so much room. The error is out of memory.
pub fn work_of(alloc: Global, room: &Room) -> Result<Work, AllocError>
    requires subjects { room.now.subjects ≤ SET_SUBJECTS }
    requires entries { room.now.entries ≤ MAX_ROOM }
    ensures shape { IfOk result IsShaped }
    ensures subjects { IfOk result (λ w. length w.start.items ≡ room.now.subjects) }
    ensures entries { IfOk result (λ w. length w.trail.items ≡ room.now.entries) }
{
    let none = Entry {
        subject: 0,
        before: 0,
        kept: 0,
        why: Why::Chosen,
    };
    Ok(Work {
        start: vec![in alloc; 0; room.subjects]?,
        dom: vec![in alloc; 0; room.subjects]?,
        learn: vec![in alloc; 0; room.subjects]?,
        trail: vec![in alloc; none; room.entries]?,
        long: 0,
        marks: vec![in alloc; 0; room.entries]?,
        levels: 0,
        head: 0,
    })
}
