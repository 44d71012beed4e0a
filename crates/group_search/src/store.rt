//! The cuts that are kept, the short ones first, and then by their pairs, in memory that is taken once. A contract sees them in this order.

ghost use Rattle.std.specs.Prelude.{◌≡◌, ◌⊎◌, ◌<◌, ◌≤◌, ℕ, [], Contains, IfOk, List, Some, length, slice_get, slice_index_or};
ghost use Rattle.cca_base.specs.declared.cube.Pair.{Pair};

use arrayvec::ArrayVec;
use bounded_list::BoundedList;
use cca_base::Pair;
use std::alloc::{AllocError, Global};
use std::marker::Model;

/// The most cuts that are kept.
pub const MAX_CUTS: usize = 512;

/// The most pairs of a cut that is kept.
pub const MAX_PAIRS: usize = 64;

/// Cuts, each in a slot of its own.
#[derive(Drop)]
pub struct Store {
    slots: Vec<ArrayVec<Pair, 64>>,
    /// The slots in use, in the order of their cuts.
    order: BoundedList<u16>,
}

impl Model for Store {
    ghost use Rattle.std.specs.Prelude.{◌≡◌, ◌<◌, All, List, length, map};
    ghost use Rattle.cca_base.specs.Prelude.{model_codes};
    ghost use Rattle.cca_base.specs.declared.cube.Pair.{Pair};
    ghost use Rattle.group_search.specs.Stores.{cuts_in};
    ghost use Rattle.group_search.specs.declared.store.TheConstants.{MAX_CUTS};

    ghost Value = { List (List Pair) };

    ghost coded = { Prim.hlevel model_codes };

    ghost view = { λ s. cuts_in (map (λ a. a.items) s.slots.items) s.order.items };

    ghost invariant = { λ s. (length s.slots.items ≡ MAX_CUTS) × (s.order.room ≡ MAX_CUTS) × All (λ i. i < MAX_CUTS) s.order.items };
}

/// Whether the first cut is to stand before the second: shorter ones first, and then by their pairs.
fn comes_before(first: &[Pair], second: &[Pair]) -> bool {
    if first.len() != second.len() {
        return first.len() < second.len();
    }
    for at in 0..first.len() {
        if first[at].item != second[at].item {
            return first[at].item < second[at].item;
        }
    }
    false
}

/// Puts a number at a place among the others.
fn insert(order: &mut BoundedList<u16>, at: usize, slot: u16)
    requires room { length order.old.items < order.old.room }
    requires at { at ≤ length order.old.items }
    ensures room { order.new.room ≡ order.old.room }
    ensures members { (x : ℕ) → Contains order.new.items x → Contains order.old.items x ⊎ (x ≡ slot) }
{
    let len = order.len();
    order.push(slot);
    for behind in at..len {
        let place = len - (behind - at);
        let moved = *order.get(place - 1);
        order.set(place, moved);
    }
    order.set(at, slot);
}

impl Store {
    /// No cut, with all the memory for them. The error is out of memory.
    pub(crate) fn with_room(alloc: Global) -> Result<Store, AllocError>
        ensures { IfOk result (λ s. s ≡ []) }
    {
        let mut slots = Vec::with_capacity(alloc, MAX_CUTS)?;
        for _ in 0..MAX_CUTS {
            slots.push(ArrayVec::new())?;
        }
        Ok(Store {
            slots,
            order: BoundedList::with_room(alloc, MAX_CUTS)?,
        })
    }

    /// How many there are.
    pub(crate) fn len(&self) -> usize
        ensures len { result ≡ length self.now }
        ensures few { result ≤ MAX_CUTS }
    {
        self.order.len()
    }

    /// The cut at a place, counted from 0.
    pub(crate) fn get(&self, at: usize) -> &[Pair]
        requires { at < length self.now }
        ensures { slice_get self.now at ≡ Some result.now }
    {
        self.slots[*self.order.get(at) as usize].as_slice()
    }

    /// Lets all of them go.
    pub(crate) fn clear(&mut self)
        ensures { self.new ≡ [] }
    {
        self.order.clear();
    }

    /// A slot that is free: the next one, or that of the last cut, which goes.
    fn free_slot(&mut self) -> u16
        ensures slot { result < MAX_CUTS }
        ensures room { length self.new < MAX_CUTS }
        ensures members { (k : List Pair) → Contains self.new k → Contains self.old k }
    {
        let len = self.order.len();
        if len < MAX_CUTS {
            return len as u16;
        }
        match self.order.pop() {
            Some(slot) => slot,
            None => unreachable!(),
        }
    }

    /// Where the first cut stands that comes behind this one.
    fn place_for(&self, cut: &[Pair]) -> usize
        ensures { result ≤ length self.now }
    {
        for at in 0..self.len() {
            if comes_before(cut, self.get(at)) {
                return at;
            }
        }
        self.len()
    }

    /// Keeps a cut, but for one of too many pairs. From a full store the longest one goes first.
    pub(crate) fn keep(&mut self, cut: &[Pair])
        ensures { (k : List Pair) → Contains self.new k → Contains self.old k ⊎ (k ≡ cut.now) }
    {
        if cut.len() > MAX_PAIRS {
            return;
        }
        let slot = self.free_slot();
        let at = self.place_for(cut);
        let kept = &mut self.slots[slot as usize];
        kept.clear();
        let Ok(()) = kept.try_extend_from_slice(cut) else {
            unreachable!()
        };
        insert(&mut self.order, at, slot);
    }
}
