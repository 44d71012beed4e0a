//! Columns: the least path of each component, and what it costs more to leave its values.

ghost use Rattle.std.specs.Prelude.{◌≡◌, ◌<◌, length, IfOk};

use cca_base::List;
use std::alloc::{AllocError, Global};

/// The most that a path costs.
pub const MAX_PATH: u64 = 1_099_511_627_776;

/// The least path of each component in a box.
#[derive(Debug, Drop)]
pub struct Columns {
    /// The value of each place on the least path of its component.
    pub values: List<u8>,
    /// What each path costs more at least that has another value there; None where there is none.
    pub prices: List<Option<u64>>,
    /// What the path of each component costs.
    pub costs: List<u64>,
    /// Room for what comes behind a path's values, while it is found.
    pub behind: List<Option<u64>>,
    /// Room for what comes before them.
    pub before: List<Option<u64>>,
}

/// Values of all places, with what each component costs.
#[derive(Debug, Drop)]
pub struct Chosen {
    pub values: List<u8>,
    pub costs: List<u64>,
}

/// Writes the items over others, which are as many.
pub(crate) fn write_over<T: Copy + Drop>(items: &[T], over: &mut List<T>)
    requires { length over.old ≡ length items.now }
    ensures { over.new ≡ items.now }
{
    for at in 0..items.len() {
        over.set(at, items[at]);
    }
}

impl Columns {
    /// Columns of so many places and components, with nothing in them. The error is out of memory.
    pub(crate) fn of(
        alloc: Global,
        places: usize,
        components: usize,
        room: usize,
    ) -> Result<Columns, AllocError>
        ensures values { IfOk result (λ x. length x.values ≡ places) }
        ensures prices { IfOk result (λ x. length x.prices ≡ places) }
        ensures costs { IfOk result (λ x. length x.costs ≡ components) }
        ensures behind { IfOk result (λ x. length x.behind ≡ room) }
        ensures before { IfOk result (λ x. length x.before ≡ room) }
    {
        Ok(Columns {
            values: List::of(vec![in alloc; 0; places]?),
            prices: List::of(vec![in alloc; None; places]?),
            costs: List::of(vec![in alloc; 0; components]?),
            behind: List::of(vec![in alloc; None; room]?),
            before: List::of(vec![in alloc; None; room]?),
        })
    }

    /// Writes the least paths over others.
    pub(crate) fn copy_to(&self, chosen: &mut Chosen)
        requires values { length chosen.old.values ≡ length self.now.values }
        requires costs { length chosen.old.costs ≡ length self.now.costs }
        ensures values { chosen.new.values ≡ self.now.values }
        ensures costs { chosen.new.costs ≡ self.now.costs }
    {
        write_over(self.values.as_slice(), &mut chosen.values);
        write_over(self.costs.as_slice(), &mut chosen.costs);
    }
}

impl Chosen {
    /// Nothing of so many places and components. The error is out of memory.
    pub(crate) fn of(alloc: Global, places: usize, components: usize) -> Result<Chosen, AllocError>
        ensures values { IfOk result (λ x. length x.values ≡ places) }
        ensures costs { IfOk result (λ x. length x.costs ≡ components) }
    {
        Ok(Chosen {
            values: List::of(vec![in alloc; 0; places]?),
            costs: List::of(vec![in alloc; 0; components]?),
        })
    }

    /// Becomes the same as others.
    pub(crate) fn take(&mut self, other: &Chosen)
        requires values { length self.old.values ≡ length other.now.values }
        requires costs { length self.old.costs ≡ length other.now.costs }
        ensures { self.new ≡ other.now }
    {
        write_over(other.values.as_slice(), &mut self.values);
        write_over(other.costs.as_slice(), &mut self.costs);
    }
}
