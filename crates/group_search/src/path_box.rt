//! A box: what each place may have, with the columns of its components.

ghost use Rattle.std.specs.Prelude.{◌≡◌, ◌<◌, ◌^◌, All, IfOk, length, slice_index, slice_set};
ghost use Rattle.group_search.specs.Columns.{IsBox};
ghost use Rattle.group_search.specs.Rooms.{IsBoxFor, IsBoxRoom};
ghost use Rattle.group_search.specs.Questions.{IsWithin};

use crate::columns::{Columns, write_over};
use crate::question::Paths;
use crate::values::has_value;
use cca_base::List;
use std::alloc::{AllocError, Global};

/// What each place may have, with the least path of each component there.
#[derive(Debug, Drop)]
pub struct PathBox {
    /// A set of values for each place.
    pub masks: List<u64>,
    pub columns: Columns,
    /// Whether each component has a path.
    pub stands: List<bool>,
}

/// The words, each of which fits.
fn words_of(masks: &[u64]) -> &[u64]
    ensures same { result.now ≡ masks.now }
    ensures words { All (λ w. w < 2 ^ 64) masks.now }
{
    masks
}

impl PathBox {
    /// Room for a box of so many places and components. The error is out of memory.
    pub(crate) fn with_room(
        alloc: Global,
        places: usize,
        components: usize,
        room: usize,
    ) -> Result<PathBox, AllocError>
        ensures { IfOk result (IsBoxFor places components room) }
    {
        Ok(PathBox {
            masks: List::of(vec![in alloc; 0; places]?),
            columns: Columns::of(alloc, places, components, room)?,
            stands: List::of(vec![in alloc; false; components]?),
        })
    }

    /// Becomes the box where places may have these values.
    pub(crate) fn fill<P: Paths<S>, S>(&mut self, problem: &P, masks: &[u64])
        requires room { IsBoxRoom (P.means.question problem.now) self.old }
        requires masks { length masks.now ≡ length (P.means.question problem.now).of }
        ensures ready { IsBox (P.means.question problem.now) self.new }
        ensures masks { self.new.masks ≡ masks.now }
    {
        write_over(masks, &mut self.masks);
        let words = words_of(masks);
        for component in 0..problem.count() {
            let stand = problem.column(component as u16, words, &mut self.columns);
            self.stands.set(component, stand);
        }
    }

    /// From now on the place may have these values.
    pub fn put<P: Paths<S>, S>(&mut self, problem: &P, place: u16, mask: u64)
        requires ready { IsBox (P.means.question problem.now) self.old }
        requires place { place < length (P.means.question problem.now).of }
        ensures ready { IsBox (P.means.question problem.now) self.new }
        ensures masks { self.new.masks ≡ slice_set self.old.masks place mask }
    {
        self.masks.set(place as usize, mask);
        let component = problem.components()[place as usize];
        let stands = problem.column(component, self.masks.as_slice(), &mut self.columns);
        self.stands.set(component as usize, stands);
    }

    /// From now on the place may have these values, of those that it might have before.
    pub fn narrow<P: Paths<S>, S>(&mut self, problem: &P, place: u16, mask: u64)
        requires ready { IsBox (P.means.question problem.now) self.old }
        requires place { place < length (P.means.question problem.now).of }
        requires within { IsWithin mask (slice_index self.old.masks place) }
        ensures ready { IsBox (P.means.question problem.now) self.new }
        ensures masks { self.new.masks ≡ slice_set self.old.masks place mask }
    {
        if has_value(mask, *self.columns.values.get(place as usize)) {
            self.masks.set(place as usize, mask);
        } else {
            self.put(problem, place, mask);
        }
    }
}
