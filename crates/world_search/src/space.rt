//! Buffers in which worlds are sought.

ghost use Rattle.std.specs.Prelude.{◌≡◌};
ghost use Rattle.world_search.specs.Spaces.{world_in};

use crate::mend::Mending;
use crate::store::Store;
use crate::work::Work;

/// What each subject may be, the world at hand, and the buffers of a search. A `Problem` makes it, and it serves that one alone.
#[derive(Drop)]
pub struct Space {
    /// What each subject may be, by what is seen.
    pub(crate) base: Vec<u64>,
    pub(crate) work: Work,
    pub(crate) store: Store,
    /// The world that was found last, or any values.
    pub(crate) world: Vec<u8>,
    pub(crate) trial: Vec<u8>,
    pub(crate) mending: Mending,
    /// Whether it is known that there is no world.
    pub(crate) stuck: bool,
    /// Whether some clauses alone were looked at.
    pub(crate) near: bool,
}

impl Space {
    /// The values at hand: after a question whose pairs some world has, that world.
    pub fn world(&self) -> &[u8]
        ensures { result.now ≡ world_in self.now }
    {
        &self.world
    }
}
