//! Short lists, one behind the other in one list with room for so many items of them all.

ghost use Rattle.std.specs.Prelude.{◌≡◌, ◌+◌, ◌<◌, ◌≤◌, [], ◌∷◌, ◌++◌, length, slice_get, slice_index, slice_index_or, Some, IfOk};

use crate::bounded_list::BoundedList;
use std::alloc::{AllocError, Global};
use std::marker::Model;

/// Rows of items. A contract sees the rows, how many items they have together, and its room for items and for rows.
#[derive(Debug, Drop)]
pub struct BoundedRows<T> {
    items: BoundedList<T>,
    /// Where each row ends among the items.
    ends: BoundedList<usize>,
}

impl<T> Model for BoundedRows<T> {
    ghost use Rattle.std.specs.Prelude.{length};
    ghost use Rattle.bounded_list.specs.Rows.{AreEnds, Rows, rows_by, rows_code};

    ghost Value = { Rows T };

    ghost coded = { rows_code T.code };

    ghost view = { λ r. record {
      rows = rows_by 0 r.ends.items r.items.items;
      used = length r.items.items;
      room = r.items.room;
      most = r.ends.room;
    } };

    ghost invariant = { λ r. AreEnds 0 r.ends.items (length r.items.items) };
}

/// Where the row at a place starts.
fn start_of(ends: &BoundedList<usize>, at: usize) -> usize
    requires { at ≤ length ends.now.items }
    ensures { result ≡ slice_index (0 ∷ ends.now.items) at }
{
    if at == 0 { 0 } else { *ends.get(at - 1) }
}

impl<T> BoundedRows<T> {
    /// No row, with room for so many items and so many rows. The error is out of memory.
    pub fn with_room(alloc: Global, room: usize, most: usize) -> Result<BoundedRows<T>, AllocError>
    where
        T: Drop,
        ensures rows { IfOk result (λ r. r.rows ≡ []) }
        ensures used { IfOk result (λ r. r.used ≡ 0) }
        ensures room { IfOk result (λ r. r.room ≡ room) }
        ensures most { IfOk result (λ r. r.most ≡ most) }
    {
        Ok(BoundedRows {
            items: BoundedList::with_room(alloc, room)?,
            ends: BoundedList::with_room(alloc, most)?,
        })
    }

    /// How many rows there are.
    #[tactic(auto, using(crate::proofs::Rows::rows_length))]
    pub fn len(&self) -> usize
        ensures len { result ≡ length self.now.rows }
        ensures within { result ≤ self.now.most }
    {
        self.ends.len()
    }

    /// How many items they have together.
    pub fn used(&self) -> usize
        ensures used { result ≡ self.now.used }
        ensures within { result ≤ self.now.room }
    {
        self.items.len()
    }

    /// The row at a place, counted from 0.
    #[tactic(auto, using(crate::proofs::Rows::rows_length, crate::proofs::Rows::row_got, crate::proofs::Rows::row_here))]
    pub fn get(&self, at: usize) -> &[T]
        requires { at < length self.now.rows }
        ensures value { slice_get self.now.rows at ≡ Some result.now }
        ensures row { result.now ≡ slice_index_or self.now.rows at [] }
    {
        let start = start_of(&self.ends, at);
        let end = *self.ends.get(at);
        &self.items.as_slice()[start..end]
    }

    /// Lets all rows go.
    pub fn clear(&mut self)
    where
        T: Drop,
        ensures rows { self.new.rows ≡ [] }
        ensures used { self.new.used ≡ 0 }
        ensures room { self.new.room ≡ self.old.room }
        ensures most { self.new.most ≡ self.old.most }
    {
        self.items.clear();
        self.ends.clear();
    }

    /// Puts a row behind the others, where there is room for it.
    #[tactic(auto, using(crate::proofs::Rows::rows_length, crate::proofs::Rows::pushed_ends, crate::proofs::Rows::pushed_rows))]
    pub fn push(&mut self, row: &[T])
    where
        T: Copy,
        requires items { self.old.used + length row.now ≤ self.old.room }
        requires rows { length self.old.rows < self.old.most }
        ensures rows { self.new.rows ≡ self.old.rows ++ row.now ∷ [] }
        ensures used { self.new.used ≡ self.old.used + length row.now }
        ensures room { self.new.room ≡ self.old.room }
        ensures most { self.new.most ≡ self.old.most }
    {
        self.items.push_all(row);
        self.ends.push(self.items.len());
    }
}
