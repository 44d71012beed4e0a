//! The classes of components one after the other, causes first: whether a move is open depends on the classes of what its
//! component needs alone.

ghost use Rattle.std.specs.Prelude.{◌≡◌, ◌+◌, ◌-◌, ◌<◌, IfOk, drop, length};
ghost use Rattle.cca_base.specs.Prelude.{IsState};
ghost use Rattle.reversibility.specs.Homes.{AreDone, IsNothing};

use crate::around::class_around;
use crate::paths::Paths;
use cca_base::{Compiled, List, State, ValueSet};
use std::alloc::{AllocError, Global};

/// The classes that are taken so far, causes first, and the flags of what can be mended.
#[derive(Debug, Drop)]
pub(crate) struct Taken {
    /// The set of each component, empty where its class is not taken.
    pub rows: List<ValueSet>,
    /// Which components are mendable.
    pub mendable: List<bool>,
}

impl Taken {
    /// Nothing, for so many components. The error is out of memory.
    pub fn with_room(alloc: Global, count: usize) -> Result<Taken, AllocError>
        ensures { IfOk result (IsNothing count) }
    {
        Ok(Taken {
            rows: List::of(vec![in alloc; ValueSet::empty(); count]?),
            mendable: List::of(vec![in alloc; false; count]?),
        })
    }

    /// Lets all that was taken go.
    #[tactic(auto, using(crate::proofs::Taken::bare_more, crate::proofs::Taken::all_bare))]
    pub fn clear(&mut self)
        requires { length self.old.mendable ≡ length self.old.rows }
        ensures { IsNothing (length self.old.rows) self.new }
    {
        for c in 0..self.rows.len() {
            self.rows.set(c, ValueSet::empty());
            self.mendable.set(c, false);
        }
    }
}

/// The class of one component more, where the classes of so many from the order's end are there.
fn take(compiled: &Compiled, base: &State, taken: &mut Taken, i: usize, paths: &mut Paths)
    requires state { IsState compiled.now.model base.now.modes }
    requires within { i < length compiled.now.order }
    requires done { AreDone compiled.now.model base.now.modes taken.old.rows taken.old.mendable
        (drop (length compiled.now.order - i) compiled.now.order) }
    ensures { AreDone compiled.now.model base.now.modes taken.new.rows
        taken.new.mendable
        (drop (length compiled.now.order - (i + 1)) compiled.now.order) }
{
    let order = compiled.order();
    let c = *order.get(order.len() - 1 - i);
    let mode = *base.modes.get(c as usize);
    if let Some(class) = class_around(compiled, taken.rows.as_slice(), c, mode, paths) {
        taken.rows.set(c as usize, class);
        let broken = compiled.model().broken(c, mode);
        taken.mendable.set(c as usize, broken);
    }
}

/// The classes of all components.
#[tactic(auto, using(crate::proofs::Taken::nothing_done))]
pub(crate) fn take_all(compiled: &Compiled, base: &State, taken: &mut Taken, paths: &mut Paths)
    requires state { IsState compiled.now.model base.now.modes }
    requires nothing { IsNothing (length compiled.now.model.components) taken.old }
    ensures { AreDone compiled.now.model base.now.modes taken.new.rows taken.new.mendable compiled.now.order }
{
    for i in 0..compiled.order().len() {
        take(compiled, base, taken, i, paths);
    }
}
