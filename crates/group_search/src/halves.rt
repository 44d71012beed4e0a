//! The halves of split boxes that are still to be looked at, the newest on top, in memory that is taken once.

ghost use Rattle.std.specs.Prelude.{◌≡◌, ◌<◌, ◌≤◌, [], ◌∷◌, length, IfOk, MatchOption};

use bounded_list::BoundedList;
use std::alloc::{AllocError, Global};
use std::marker::Model;

/// A place whose set of values was split.
#[derive(Clone, Copy, Debug)]
pub struct Half {
    pub item: u16,
    /// What the place could have before.
    pub before: u64,
    /// What it may have in the half that is still to be looked at; nothing where both halves have been.
    pub left: u64,
}

/// Splits, of which a contract sees the newest first, and how many there may be.
#[derive(Debug, Drop)]
pub struct Halves {
    halves: BoundedList<Half>,
}

impl Model for Halves {
    ghost use Rattle.std.specs.Prelude.{reverse};
    ghost use Rattle.cca_base.specs.Prelude.{model_codes};
    ghost use Rattle.bounded_list.specs.Bounded.{Bounded, bounded};
    ghost use Rattle.group_search.specs.declared.halves.Half.{Half};

    ghost Value = { Bounded Half };

    ghost coded = { Prim.hlevel model_codes };

    ghost view = { λ h. bounded (reverse h.halves.items) h.halves.room };
}

impl Halves {
    /// No split, with room for so many. The error is out of memory.
    pub fn with_room(alloc: Global, room: usize) -> Result<Halves, AllocError>
        ensures items { IfOk result (λ h. h.items ≡ []) }
        ensures room { IfOk result (λ h. h.room ≡ room) }
    {
        Ok(Halves {
            halves: BoundedList::with_room(alloc, room)?,
        })
    }

    /// Lets all splits go.
    pub fn clear(&mut self)
        ensures items { self.new.items ≡ [] }
        ensures room { self.new.room ≡ self.old.room }
    {
        self.halves.clear();
    }

    /// Puts a split on top, where there is room for it.
    pub fn push(&mut self, half: Half)
        requires { length self.old.items < self.old.room }
        ensures items { self.new.items ≡ half ∷ self.old.items }
        ensures room { self.new.room ≡ self.old.room }
    {
        self.halves.push(half);
    }

    /// Takes the newest split.
    pub fn pop(&mut self) -> Option<Half>
        ensures items { MatchOption result ((self.old.items ≡ []) × (self.new.items ≡ [])) (λ half. self.old.items ≡ half ∷ self.new.items) }
        ensures within { length self.old.items ≤ self.old.room }
        ensures room { self.new.room ≡ self.old.room }
    {
        let _within = self.halves.len();
        self.halves.pop()
    }
}
