//! What bears on which events may come next: the observations that are pending, and the variables that are mirrored.

ghost use Rattle.std.specs.Prelude.{◌≡◌, [], All, Contains, IfOk};
ghost use Rattle.cca_base.specs.Prelude.{IsCube, IsRising, IsUnion, Lacks, MayCome};
ghost use Rattle.trace_laws.specs.Events.{PendingAfter, mirrored_after};

use bounded_list::BoundedList;
use cca_base::{Event, List, Model, Pair, Seen, VarSet};
use consistency::join;
use std::alloc::{AllocError, Global};

/// What is pending, and what is mirrored.
#[derive(Debug, Drop)]
pub struct Known {
    /// What the next tick observes besides the mirrored variables.
    pub pending: Seen,
    pub mirrored: VarSet,
}

/// No observation, which takes no memory.
pub fn nothing_seen(alloc: Global) -> Seen
    ensures { result.pairs ≡ [] }
{
    Seen {
        pairs: List::new(alloc),
    }
}

/// What is seen, with pairs of other variables besides. The error is out of memory.
fn joined(alloc: Global, seen: &Seen, pairs: &List<Pair>) -> Result<Seen, AllocError>
    requires rising { IsRising seen.now.pairs }
    requires once { IsCube pairs.now }
    requires new { All (λ p. Lacks p.item seen.now.pairs) pairs.now }
    ensures { IfOk result (λ both.
        IsUnion (Contains seen.now.pairs) (Contains pairs.now) both.pairs) }
{
    let Some(room) = seen.pairs.len().checked_add(pairs.len()) else {
        return Err(AllocError);
    };
    let mut both = BoundedList::with_room(alloc, room)?;
    both.push_all(seen.pairs.as_slice());
    join(&mut both, pairs.as_slice());
    Ok(Seen {
        pairs: List::of(both.into_vec()),
    })
}

/// What is pending after an event. The error is out of memory.
fn pending_after(
    alloc: Global,
    model: &Model,
    known: &Known,
    event: &Event,
) -> Result<Seen, AllocError>
    requires rising { IsRising known.now.pending.pairs }
    requires may_come { MayCome model.now known.now.pending.pairs known.now.mirrored event.now }
    ensures pending { IfOk result (λ r. PendingAfter known.now.pending.pairs event.now r.pairs) }
    ensures rising { IfOk result (λ r. IsRising r.pairs) }
{
    match event {
        Event::Observe(pairs) => joined(alloc, &known.pending, pairs),
        Event::Tick | Event::Reset => Ok(nothing_seen(alloc)),
        Event::Goal(_) | Event::Clear | Event::Fault(_) | Event::Mirror(_) => {
            let pairs = known.pending.pairs.copy(alloc)?;
            Ok(Seen { pairs })
        }
    }
}

/// What is mirrored after an event.
fn mirrored_after(model: &Model, known: &Known, event: &Event) -> VarSet
    requires { MayCome model.now known.now.pending.pairs known.now.mirrored event.now }
    ensures { result ≡ mirrored_after known.now.mirrored event.now }
{
    // The prover is to know that the model has few variables.
    let _moves = model.moves();
    match event {
        Event::Mirror(v) => known.mirrored.with(*v),
        Event::Reset => VarSet::empty(),
        Event::Goal(_) | Event::Clear | Event::Observe(_) | Event::Fault(_) | Event::Tick => {
            known.mirrored
        }
    }
}

impl Known {
    /// Nothing pending and nothing mirrored.
    pub fn nothing(alloc: Global) -> Known
        ensures pending { result.pending.pairs ≡ [] }
        ensures mirrored { result.mirrored ≡ 0 }
    {
        Known {
            pending: nothing_seen(alloc),
            mirrored: VarSet::empty(),
        }
    }

    /// What is pending and mirrored after an event. The error is out of memory.
    pub fn after(&self, alloc: Global, model: &Model, event: &Event) -> Result<Known, AllocError>
        requires rising { IsRising self.now.pending.pairs }
        requires may_come { MayCome model.now self.now.pending.pairs self.now.mirrored event.now }
        ensures pending { IfOk result (λ r.
            PendingAfter self.now.pending.pairs event.now r.pending.pairs) }
        ensures mirrored { IfOk result (λ r.
            r.mirrored ≡ mirrored_after self.now.mirrored event.now) }
        ensures rising { IfOk result (λ r. IsRising r.pending.pairs) }
    {
        let pending = pending_after(alloc, model, self, event)?;
        let mirrored = mirrored_after(model, self, event);
        Ok(Known { pending, mirrored })
    }
}
