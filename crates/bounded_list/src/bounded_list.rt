//! A list with room for so many items. A contract sees its items and its room.

ghost use Rattle.std.specs.Prelude.{◌≡◌, ◌+◌, ◌<◌, ◌≤◌, [], ◌∷◌, ◌++◌, length, take, slice_get, slice_index_or, slice_set, Some, IfOk, MatchOption};
ghost use Rattle.std.specs.List.Sorted.{IsPermutation, IsSortedByKeyClosure};

use std::alloc::{AllocError, Global};
use std::marker::Model;

/// Items, and how many there may be.
#[derive(Debug, Drop)]
pub struct BoundedList<T> {
    items: Vec<T, Global>,
    room: usize,
}

impl<T> Model for BoundedList<T> {
    ghost use Rattle.std.specs.Prelude.{◌≤◌, length, vec_capacity};
    ghost use Rattle.bounded_list.specs.Bounded.{Bounded, bounded_code};

    ghost Value = { Bounded T };

    ghost coded = { bounded_code T.code };

    ghost view = { λ l. record { items = l.items.items; room = l.room } };

    ghost invariant = { λ l. (length l.items.items ≤ l.room) × (l.room ≤ vec_capacity l.items) };
}

impl<T> BoundedList<T> {
    /// The empty list with room for so many items. The error is out of memory.
    pub fn with_room(alloc: Global, room: usize) -> Result<BoundedList<T>, AllocError>
        ensures items { IfOk result (λ l. l.items ≡ []) }
        ensures room { IfOk result (λ l. l.room ≡ room) }
    {
        Ok(BoundedList {
            items: Vec::with_capacity(alloc, room)?,
            room,
        })
    }

    /// The items, without the room.
    pub fn into_vec(self) -> Vec<T, Global>
        ensures { result.items ≡ self.items }
    {
        self.items
    }

    /// How many items there are.
    pub fn len(&self) -> usize
        ensures len { result ≡ length self.now.items }
        ensures within { result ≤ self.now.room }
    {
        self.items.len()
    }

    /// The items.
    pub fn as_slice(&self) -> &[T]
        ensures items { result.now ≡ self.now.items }
        ensures within { length result.now ≤ self.now.room }
    {
        self.items.as_slice()
    }

    /// The item at a place, counted from 0.
    pub fn get(&self, at: usize) -> &T
        requires { at < length self.now.items }
        ensures value { slice_get self.now.items at ≡ Some result.now }
        ensures item { result.now ≡ slice_index_or self.now.items at result.now }
    {
        &self.items[at]
    }

    /// Puts an item in place of another.
    pub fn set(&mut self, at: usize, x: T)
    where
        T: Drop,
        requires { at < length self.old.items }
        ensures items { self.new.items ≡ slice_set self.old.items at x }
        ensures room { self.new.room ≡ self.old.room }
    {
        self.items[at] = x;
    }

    /// Puts an item behind the others, where there is room for one.
    pub fn push(&mut self, x: T)
        requires { length self.old.items < self.old.room }
        ensures items { self.new.items ≡ self.old.items ++ x ∷ [] }
        ensures room { self.new.room ≡ self.old.room }
    {
        self.items.push_reserved(x);
    }

    /// Puts items behind the others, where there is room for them.
    pub fn push_all(&mut self, items: &[T])
    where
        T: Copy,
        requires { length self.old.items + length items.now ≤ self.old.room }
        ensures items { self.new.items ≡ self.old.items ++ items.now }
        ensures room { self.new.room ≡ self.old.room }
    {
        let Ok(()) = self.items.extend_from_slice(items) else {
            unreachable!()
        };
    }

    /// Puts the items in an order in which their keys do not fall. Items of one key stand in any order.
    pub fn sort_unstable_by_key<K: Ord + Drop, F: FnMut(&T) -> K>(&mut self, key: F)
        requires { F.IsAlwaysCallable key }
        ensures permutation { IsPermutation self.old.items self.new.items }
        ensures sorted { IsSortedByKeyClosure F.FnMut K.cmp key self.new.items }
        ensures room { self.new.room ≡ self.old.room }
    {
        self.items.sort_unstable_by_key(key);
    }

    /// Takes the last item away.
    pub fn pop(&mut self) -> Option<T>
        ensures items { MatchOption result ((self.old.items ≡ []) × (self.new.items ≡ [])) (λ x. self.old.items ≡ self.new.items ++ x ∷ []) }
        ensures room { self.new.room ≡ self.old.room }
    {
        self.items.pop()
    }

    /// Lets all items behind the first ones go.
    pub fn truncate(&mut self, len: usize)
    where
        T: Drop,
        ensures items { self.new.items ≡ take len self.old.items }
        ensures room { self.new.room ≡ self.old.room }
    {
        self.items.truncate(len);
    }

    /// Lets all items go.
    pub fn clear(&mut self)
    where
        T: Drop,
        ensures items { self.new.items ≡ [] }
        ensures room { self.new.room ≡ self.old.room }
    {
        self.items.clear();
    }
}
