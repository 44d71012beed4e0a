//! The trail of a search, with room for all that it can take from the subjects.

ghost use Rattle.std.specs.Prelude.{◌≡◌, ◌≢◌, ℕ, Bool, ◌+◌, ◌<◌, ◌≤◌, true, List, length, slice_index, slice_set, bit_and};
ghost use Rattle.cca_base.specs.Sets.{has};
ghost use Rattle.cca_base.specs.declared.cube.Pair.{Pair};
ghost use Rattle.cca_base.specs.declared.limits.TheConstants.{MAX_CHOICES};
ghost use Rattle.clash_analysis.specs.Laws.{Passes};
ghost use Rattle.clash_analysis.specs.Trails.{IsWhy};
ghost use Rattle.world_search.specs.Works.{HasMore, IsMoved, IsPut, IsReady, IsRight, KeepsBelow, KeepsLevels, MayFollow, ShareSome, weight_of};

use clash_analysis::{Entry, Why};

/// The most entries of a trail.
pub const MAX_ROOM: usize = 65_535;

/// What a search has taken from the subjects so far, in buffers that are made once.
#[derive(Drop)]
pub struct Work {
    /// What each subject may be when a question begins.
    pub start: Vec<u64>,
    /// What the trail leaves of it.
    pub dom: Vec<u64>,
    /// The clause that is learned while a clash is looked at, and else nothing.
    pub learn: Vec<u64>,
    /// Room for entries, of which the first ones are the trail.
    pub trail: Vec<Entry>,
    /// How many entries the trail has.
    pub long: usize,
    /// Room for marks, which say where on the trail a value was tried, rising.
    pub marks: Vec<u16>,
    /// How many marks there are.
    pub levels: usize,
    /// How many entries have been looked at by propagation.
    pub head: usize,
}

/// Puts an entry on the trail.
fn put(work: &mut Work, subject: u16, kept: u64, why: Why)
    requires subject { subject < length work.old.dom.items }
    requires room { work.old.long < length work.old.trail.items }
    ensures put { IsPut work.old subject kept why work.new }
    ensures levels { KeepsLevels work.old work.new }
{
    let at = subject as usize;
    let before = work.dom[at];
    let long = work.long;
    work.trail[long] = Entry {
        subject,
        before,
        kept,
        why,
    };
    work.dom[at] = before & kept;
    work.long = long + 1;
}

/// Leaves the subject the kept ones of its values.
pub fn narrow(work: &mut Work, subject: u16, kept: u64, why: Why)
    requires ready { IsReady work.old }
    requires subject { subject < length work.old.dom.items }
    requires some { ShareSome (slice_index work.old.dom.items subject) kept }
    requires more { HasMore (slice_index work.old.dom.items subject) kept }
    requires why { MayFollow work.old why }
    ensures ready { IsReady work.new }
    ensures moved { IsMoved work.old work.new }
    ensures put { IsPut work.old subject kept why work.new }
    ensures right { (want : List ℕ → Bool) (pairs : List Pair) →
        IsWhy (Passes want) pairs work.old.dom.items subject kept why → IsRight want pairs work.old →
        IsRight want pairs work.new }
{
    put(work, subject, kept, why);
}

/// Tries the value of the subject, on a new level.
pub fn try_value(work: &mut Work, subject: u16, value: u8)
    requires ready { IsReady work.old }
    requires subject { subject < length work.old.dom.items }
    requires small { value < MAX_CHOICES }
    requires has { has (slice_index work.old.dom.items subject) value ≡ true }
    requires other { (a : ℕ) × (a ≢ value) × (has (slice_index work.old.dom.items subject) a ≡ true) }
    ensures ready { IsReady work.new }
    ensures start { work.new.start.items ≡ work.old.start.items }
    ensures learn { work.new.learn.items ≡ work.old.learn.items }
    ensures room { length work.new.trail.items ≡ length work.old.trail.items }
    ensures below { KeepsBelow work.old work.new }
    ensures weight { weight_of work.new < weight_of work.old }
    ensures right { (want : List ℕ → Bool) (pairs : List Pair) → IsRight want pairs work.old → IsRight want pairs work.new }
{
    let levels = work.levels;
    let long = work.long;
    put(work, subject, 1 << value, Why::Chosen);
    work.marks[levels] = long as u16;
    work.levels = levels + 1;
}
