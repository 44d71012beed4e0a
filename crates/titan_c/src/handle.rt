//! The handle that C holds.

ghost use Rattle.std.specs.Prelude.{◌≡◌, Option, Some, None, MatchOption};
ghost use Rattle.titan_c.specs.Owned.{handle_owns, kept_coded};
ghost use Rattle.titan_session.specs.RunSessions.{RunSession};

use loose_box::Loose;
use run_form::RunMachine;
use std::alloc::Global;
use std::marker::Model;
use std::mem;
use std::ptr::null_mut;
use titan_session::Session;

/// A handle: null, or a pointer to a session. C makes one of zero bytes.
#[repr(C)]
pub struct Handle {
    at: *mut u8,
    alloc: Global,
    /// What it holds.
    pub ghost kept: { Option RunSession } by { kept_coded },
}

impl Model for Handle {
    ghost also_owns = { λ h. handle_owns h.alloc h.at h.kept };
}

impl Handle {
    /// A handle of nothing.
    fn none(alloc: Global) -> Handle
        ensures { result.kept ≡ None }
    {
        Handle {
            at: null_mut(),
            alloc,
        }
    }

    /// A handle of a box that was taken apart.
    fn of_loose(loose: Loose<Session<RunMachine>, Global>) -> Handle
        ensures { result.kept ≡ Some loose.value }
    {
        let Loose { at, alloc } = loose;
        Handle {
            at: at as *mut u8,
            alloc,
        }
    }

    /// What the handle holds.
    fn into_loose(self) -> Option<Loose<Session<RunMachine>, Global>>
        ensures { MatchOption result (self.kept ≡ None) (λ l. self.kept ≡ Some l.value) }
    {
        let Handle { at, alloc } = self;
        if at.is_null() {
            None
        } else {
            Some(Loose {
                at: at as *mut Session<RunMachine>,
                alloc,
            })
        }
    }

    /// Takes what the handle holds, and leaves nothing.
    pub fn take(&mut self, alloc: Global) -> Option<Box<Session<RunMachine>>>
        ensures left { self.new.kept ≡ None }
        ensures taken { MatchOption result (self.old.kept ≡ None) (λ b. self.old.kept ≡ Some b.value) }
    {
        match mem::replace(self, Handle::none(alloc)).into_loose() {
            Some(loose) => Some(loose.into_box()),
            None => None,
        }
    }

    /// Gives the handle a session to hold, and frees what it held.
    pub fn give(&mut self, alloc: Global, kept: Box<Session<RunMachine>>)
        ensures { self.new.kept ≡ Some kept.value }
    {
        let old = mem::replace(self, Handle::of_loose(Loose::of(kept)));
        old.close();
    }

    /// Leaves nothing in the handle, and frees what it held.
    pub fn clear(&mut self, alloc: Global)
        ensures { self.new.kept ≡ None }
    {
        mem::replace(self, Handle::none(alloc)).close();
    }

    /// Frees what the handle holds.
    fn close(self) {
        if let Some(loose) = self.into_loose() {
            drop(loose.into_box());
        }
    }
}
