//! The least solution of a problem whose values come first.

ghost use Rattle.std.specs.Prelude.{◌≡◌, ◌≤◌, IfOk, length};
ghost use Rattle.cca_base.specs.declared.limits.TheConstants.{MAX_ROWS};
ghost use Rattle.group_search.specs.Answers.{IsAnswer};
ghost use Rattle.group_search.specs.Rooms.{IsSearchRoom, IsSearchRoomFor, found_in};

use crate::columns::Chosen;
use crate::judge::all_stand;
use crate::lower::lower;
use crate::question::Paths;
use crate::settle::settle;
use crate::work::Work;
use cca_base::List;
use std::alloc::{AllocError, Global};

/// Memory for questions of so many places and components, made once for many of them.
#[derive(Drop)]
pub struct SearchRoom {
    work: Work,
    /// What was found last; else anything.
    chosen: Chosen,
    other: Chosen,
}

impl SearchRoom {
    /// Memory for questions of so many places and components, with so much room to find a path. The error is out of memory.
    pub fn of(
        alloc: Global,
        places: usize,
        components: usize,
        room: usize,
    ) -> Result<SearchRoom, AllocError>
        requires { places ≤ MAX_ROWS }
        ensures { IfOk result (IsSearchRoomFor places components room) }
    {
        let work = Work::with_room(alloc, places, components, room)?;
        Ok(SearchRoom {
            work,
            chosen: Chosen::of(alloc, places, components)?,
            other: Chosen::of(alloc, places, components)?,
        })
    }

    /// What was found last.
    pub fn chosen(&self) -> &Chosen
        ensures { result.now ≡ self.now.chosen }
    {
        &self.chosen
    }
}

/// Of the solutions whose values are in the sets the least one whose first `count` values come first among equals: it stands in the room
/// then. False comes exactly where there is none. It takes no memory.
pub fn least_in<P: Paths<S>, S>(
    problem: &P,
    space: &mut S,
    room: &mut SearchRoom,
    masks: &[u64],
    count: usize,
) -> bool
    requires space { P.means.is_space problem.now space.old }
    requires room { IsSearchRoom (P.means.question problem.now) room.old }
    requires masks { length masks.now ≡ length (P.means.question problem.now).of }
    requires count { count ≤ length (P.means.question problem.now).of }
    ensures space { P.means.is_space problem.now space.new }
    ensures room { IsSearchRoom (P.means.question problem.now) room.new }
    ensures answer { IsAnswer (P.means.question problem.now) masks.now count (found_in result room.new) }
{
    room.work.begin(problem, masks);
    let names = room.work.names.as_slice();
    if !all_stand(names, room.work.boxed.stands.as_slice()) {
        return false;
    }
    room.work.boxed.columns.copy_to(&mut room.chosen);
    if !settle(problem, space, &mut room.work, &mut room.chosen, u64::MAX) {
        return false;
    }
    lower(
        problem,
        space,
        &mut room.work,
        &mut room.chosen,
        &mut room.other,
        count,
    );
    true
}

/// The same in memory that is made for the one question. None comes exactly where there is no solution. The error is out of memory.
pub fn least_solution<P: Paths<S>, S>(
    alloc: Global,
    problem: &P,
    space: &mut S,
    masks: List<u64>,
    count: usize,
) -> Result<Option<Chosen>, AllocError>
    requires space { P.means.is_space problem.now space.old }
    requires masks { length masks ≡ length (P.means.question problem.now).of }
    requires count { count ≤ length (P.means.question problem.now).of }
    ensures space { P.means.is_space problem.now space.new }
    ensures answer { IfOk result (IsAnswer (P.means.question problem.now) masks count) }
{
    let places = problem.components().len();
    let mut room = SearchRoom::of(alloc, places, problem.count(), problem.room())?;
    if least_in(problem, space, &mut room, masks.as_slice(), count) {
        Ok(Some(room.chosen))
    } else {
        Ok(None)
    }
}
