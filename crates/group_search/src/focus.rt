//! What a search of a group looks at.

ghost use Rattle.std.specs.Prelude.{◌≡◌, ◌<◌, ◌≤◌, All, IfOk, filter, length, slice_index};
ghost use Rattle.std.specs.List.{sum_by};
ghost use Rattle.cca_base.specs.Prelude.{numbers_below};
ghost use Rattle.cca_base.specs.declared.limits.TheConstants.{MAX_ROWS};
ghost use Rattle.group_search.specs.Questions.{in_group};
ghost use Rattle.group_search.specs.declared.columns.TheConstants.{MAX_PATH};
ghost use Rattle.group_search.specs.declared.store.TheConstants.{MAX_CUTS};

use crate::groups::is_in_group;
use crate::store::{MAX_CUTS, Store};
use bounded_list::BoundedList;
use cca_base::Pair;
use std::alloc::{AllocError, Global};

/// The components of a group, rising, and the places of cuts that may be of it.
#[derive(Debug, Drop)]
pub struct Focus {
    pub members: BoundedList<u16>,
    pub cuts: BoundedList<u16>,
}

/// Writes the components of the group, rising.
fn write_members(names: &[u16], group: Option<u16>, members: &mut BoundedList<u16>)
    requires few { length names.now ≤ MAX_ROWS }
    requires room { length names.now ≤ members.old.room }
    ensures members { members.new.items ≡ filter (in_group names.now group) (numbers_below (length names.now)) }
    ensures room { members.new.room ≡ members.old.room }
{
    members.clear();
    for c in 0..names.len() {
        if is_in_group(names, group, c as u16) {
            members.push(c as u16);
        }
    }
}

/// Whether the cut may be of the group: its first pair is. What is listed is for speed alone.
fn may_be_of(names: &[u16], group: Option<u16>, components: &[u16], cut: &[Pair]) -> bool {
    let Some(first) = cut.first() else {
        return false;
    };
    let place = first.item as usize;
    if place >= components.len() || components[place] as usize >= names.len() {
        return false;
    }
    is_in_group(names, group, components[place])
}

/// Writes the places of the cuts that may be of the group, for speed alone.
pub(crate) fn write_cuts(
    names: &[u16],
    group: Option<u16>,
    components: &[u16],
    cuts: &Store,
    places: &mut BoundedList<u16>,
)
    requires { MAX_CUTS ≤ places.old.room }
    ensures { places.new.room ≡ places.old.room }
{
    places.clear();
    for at in 0..cuts.len() {
        if may_be_of(names, group, components, cuts.get(at)) {
            places.push(at as u16);
        }
    }
}

impl Focus {
    /// Nothing, with room for so many components and for all cuts. The error is out of memory.
    pub(crate) fn with_room(alloc: Global, components: usize) -> Result<Focus, AllocError>
        ensures members { IfOk result (λ f. f.members.room ≡ components) }
        ensures cuts { IfOk result (λ f. f.cuts.room ≡ MAX_CUTS) }
    {
        Ok(Focus {
            members: BoundedList::with_room(alloc, components)?,
            cuts: BoundedList::with_room(alloc, MAX_CUTS)?,
        })
    }

    /// Looks at the group's components and cuts.
    pub(crate) fn look(
        &mut self,
        names: &[u16],
        group: Option<u16>,
        components: &[u16],
        cuts: &Store,
    )
        requires few { length names.now ≤ MAX_ROWS }
        requires members { length names.now ≤ self.old.members.room }
        requires cuts { MAX_CUTS ≤ self.old.cuts.room }
        ensures members { self.new.members.items ≡ filter (in_group names.now group) (numbers_below (length names.now)) }
        ensures members_room { self.new.members.room ≡ self.old.members.room }
        ensures cuts_room { self.new.cuts.room ≡ self.old.cuts.room }
    {
        write_members(names, group, &mut self.members);
        write_cuts(names, group, components, cuts, &mut self.cuts);
    }
}

/// What these components cost.
pub(crate) fn cost_of(members: &[u16], costs: &[u64]) -> u64
    requires few { length members.now ≤ MAX_ROWS }
    requires within { All (λ c. c < length costs.now) members.now }
    requires cheap { All (λ c. slice_index costs.now c ≤ MAX_PATH) members.now }
    ensures { result ≡ sum_by (λ c. slice_index costs.now c) members.now }
{
    let mut cost = 0;
    for c in members {
        cost += costs[*c as usize];
    }
    cost
}
