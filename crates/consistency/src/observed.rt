//! What is seen, with pairs of other variables besides.

ghost use Rattle.std.specs.Prelude.{◌≡◌, ◌+◌, ◌≤◌, length, All, Contains};
ghost use Rattle.cca_base.specs.Prelude.{IsCube, IsRising, IsUnion, Lacks};

use bounded_list::BoundedList;
use cca_base::Pair;

/// Leaves in the list the pairs of both, rising. It takes no memory.
pub fn join(list: &mut BoundedList<Pair>, pairs: &[Pair])
    requires rising { IsRising list.old.items }
    requires once { IsCube pairs.now }
    requires new { All (λ p. Lacks p.item list.old.items) pairs.now }
    requires room { length list.old.items + length pairs.now ≤ list.old.room }
    ensures union { IsUnion (Contains list.old.items) (Contains pairs.now) list.new.items }
    ensures room { list.new.room ≡ list.old.room }
{
    list.push_all(pairs);
    list.sort_unstable_by_key(|pair| pair.item);
}
