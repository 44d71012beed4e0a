//! The best paths so far, and the cost below which better ones are looked for.

ghost use Rattle.std.specs.Prelude.{◌≡◌, false, true, IfOk, length};

use crate::columns::{Chosen, Columns};
use std::alloc::{AllocError, Global};

/// The best so far, if there are some, and the cost below which others are looked for.
#[derive(Debug, Drop)]
pub struct Best {
    pub is_found: bool,
    /// The paths that were found; else anything.
    pub found: Chosen,
    pub limit: u64,
}

impl Best {
    /// Nothing of so many places and components. The error is out of memory.
    pub(crate) fn with_room(
        alloc: Global,
        places: usize,
        components: usize,
    ) -> Result<Best, AllocError>
        ensures values { IfOk result (λ b. length b.found.values ≡ places) }
        ensures costs { IfOk result (λ b. length b.found.costs ≡ components) }
    {
        Ok(Best {
            is_found: false,
            found: Chosen::of(alloc, places, components)?,
            limit: 0,
        })
    }

    /// Nothing is found yet, and paths below the limit are looked for.
    pub(crate) fn begin(&mut self, limit: u64)
        ensures none { self.new.is_found ≡ false }
        ensures limit { self.new.limit ≡ limit }
        ensures found { self.new.found ≡ self.old.found }
    {
        self.is_found = false;
        self.limit = limit;
    }

    /// These paths are the best, and cost so much.
    pub(crate) fn put(&mut self, columns: &Columns, cost: u64)
        requires values { length self.old.found.values ≡ length columns.now.values }
        requires costs { length self.old.found.costs ≡ length columns.now.costs }
        ensures some { self.new.is_found ≡ true }
        ensures limit { self.new.limit ≡ cost }
        ensures values { self.new.found.values ≡ columns.now.values }
        ensures costs { self.new.found.costs ≡ columns.now.costs }
    {
        columns.copy_to(&mut self.found);
        self.is_found = true;
        self.limit = cost;
    }
}
