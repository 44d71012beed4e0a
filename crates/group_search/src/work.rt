//! What a search keeps, in memory that is taken once.

ghost use Rattle.std.specs.Prelude.{◌≡◌, ◌*◌, ◌≤◌, IfOk, length};
ghost use Rattle.cca_base.specs.Prelude.{numbers_below};
ghost use Rattle.cca_base.specs.declared.limits.TheConstants.{MAX_CHOICES, MAX_ROWS};
ghost use Rattle.group_search.specs.Rooms.{IsRoomFor, IsShapedFor};
ghost use Rattle.group_search.specs.Works.{IsWork};
ghost use Rattle.group_search.specs.declared.store.TheConstants.{MAX_CUTS};

use crate::best::Best;
use crate::focus::Focus;
use crate::halves::Halves;
use crate::path_box::PathBox;
use crate::question::Paths;
use crate::spending::Spending;
use crate::store::Store;
use bounded_list::BoundedList;
use cca_base::{List, MAX_CHOICES, Pair};
use std::alloc::{AllocError, Global};

/// A box, the cuts that are known, the name of each component's group, and room for a search.
#[derive(Drop)]
pub struct Work {
    pub boxed: PathBox,
    /// No solution has all pairs of one of them. The short ones come first.
    pub cuts: Store,
    pub names: List<u16>,
    pub spending: Spending,
    /// What the search of a group looks at.
    pub focus: Focus,
    pub halves: Halves,
    pub best: Best,
    /// Components that clashes name.
    pub marks: List<u16>,
    /// Room for a cut that was just found.
    pub cut: BoundedList<Pair>,
}

/// Gives each component its own number as the name of its group.
fn name_apart(names: &mut List<u16>)
    requires { length names.old ≤ MAX_ROWS }
    ensures { names.new ≡ numbers_below (length names.old) }
{
    for c in 0..names.len() {
        names.set(c, c as u16);
    }
}

/// How many splits there may be at most: each takes a value from a place.
fn most_halves(places: usize) -> usize
    requires { places ≤ MAX_ROWS }
    ensures { MAX_CHOICES * places ≤ result }
{
    MAX_CHOICES * places
}

/// What a search of a group is made with.
#[derive(Drop)]
struct Bounds {
    spending: Spending,
    focus: Focus,
    best: Best,
}

impl Bounds {
    /// Room for searches among so many places and components. The error is out of memory.
    fn with_room(alloc: Global, places: usize, components: usize) -> Result<Bounds, AllocError>
        ensures spent { IfOk result (λ b. length b.spending.spent ≡ components) }
        ensures named { IfOk result (λ b. length b.spending.named ≡ components) }
        ensures members { IfOk result (λ b. b.focus.members.room ≡ components) }
        ensures cuts { IfOk result (λ b. b.focus.cuts.room ≡ MAX_CUTS) }
        ensures best { IfOk result (λ b. IsShapedFor places components b.best.found) }
    {
        Ok(Bounds {
            spending: Spending::of(alloc, components)?,
            focus: Focus::with_room(alloc, components)?,
            best: Best::with_room(alloc, places, components)?,
        })
    }
}

/// The lists of a search.
#[derive(Drop)]
struct Lists {
    cuts: Store,
    names: List<u16>,
    halves: Halves,
    marks: List<u16>,
    cut: BoundedList<Pair>,
}

impl Lists {
    /// Room for searches among so many places and components. The error is out of memory.
    fn with_room(alloc: Global, places: usize, components: usize) -> Result<Lists, AllocError>
        requires { places ≤ MAX_ROWS }
        ensures names { IfOk result (λ l. length l.names ≡ components) }
        ensures halves { IfOk result (λ l. MAX_CHOICES * places ≤ l.halves.room) }
        ensures marks { IfOk result (λ l. length l.marks ≡ components) }
        ensures cut { IfOk result (λ l. l.cut.room ≡ places) }
    {
        let cuts = Store::with_room(alloc)?;
        let names = List::of(vec![in alloc; 0; components]?);
        let halves = Halves::with_room(alloc, most_halves(places))?;
        let marks = List::of(vec![in alloc; 0; components]?);
        let cut = BoundedList::with_room(alloc, places)?;
        Ok(Lists {
            cuts,
            names,
            halves,
            marks,
            cut,
        })
    }
}

impl Work {
    /// Room for searches among so many places and components. The error is out of memory.
    pub(crate) fn with_room(
        alloc: Global,
        places: usize,
        components: usize,
        room: usize,
    ) -> Result<Work, AllocError>
        requires { places ≤ MAX_ROWS }
        ensures { IfOk result (IsRoomFor places components room) }
    {
        let boxed = PathBox::with_room(alloc, places, components, room)?;
        let bounds = Bounds::with_room(alloc, places, components)?;
        let lists = Lists::with_room(alloc, places, components)?;
        Ok(Work {
            boxed,
            cuts: lists.cuts,
            names: lists.names,
            spending: bounds.spending,
            focus: bounds.focus,
            halves: lists.halves,
            best: bounds.best,
            marks: lists.marks,
            cut: lists.cut,
        })
    }

    /// Begins a search in a box, where each component is a group.
    pub(crate) fn begin<P: Paths<S>, S>(&mut self, problem: &P, masks: &[u64])
        requires room { IsRoomFor (length (P.means.question problem.now).of) (P.means.question problem.now).count
            (P.means.question problem.now).room self.old }
        requires masks { length masks.now ≡ length (P.means.question problem.now).of }
        ensures work { IsWork (P.means.question problem.now) self.new }
        ensures masks { self.new.boxed.masks ≡ masks.now }
        ensures names { self.new.names ≡ numbers_below (P.means.question problem.now).count }
    {
        self.boxed.fill(problem, masks);
        self.cuts.clear();
        name_apart(&mut self.names);
    }
}
