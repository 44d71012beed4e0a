//! The goal of a turn: the first pair of each component that is asked for.

ghost use Rattle.std.specs.Prelude.{◌≡◌, ◌==◌, ◌<◌, All};
ghost use Rattle.std.specs.List.{list_any};
ghost use Rattle.control_program.specs.Goals.{FitsRoom, with_pair, with_pairs};

use bounded_list::BoundedList;
use cca_base::Pair;

/// Whether some pair is of the component.
fn is_named(pairs: &[Pair], item: u16) -> bool
    ensures { result ≡ list_any (λ p. p.item == item) pairs.now }
{
    pairs.iter().any(|pair| pair.item == item)
}

/// Puts a pair behind the others, unless one of them is of its component.
fn put(goal: &mut BoundedList<Pair>, pair: Pair)
    requires among { pair.item < goal.old.room }
    requires fits { FitsRoom goal.old }
    ensures put { goal.new.items ≡ with_pair goal.old.items pair }
    ensures fits { FitsRoom goal.new }
    ensures room { goal.new.room ≡ goal.old.room }
{
    if !is_named(goal.as_slice(), pair.item) {
        goal.push(pair);
    }
}

/// Puts pairs behind the others, the first of each component that none of them is of.
pub(crate) fn put_all(goal: &mut BoundedList<Pair>, pairs: &[Pair])
    requires among { All (λ p. p.item < goal.old.room) pairs.now }
    requires fits { FitsRoom goal.old }
    ensures put { goal.new.items ≡ with_pairs goal.old.items pairs.now }
    ensures fits { FitsRoom goal.new }
    ensures room { goal.new.room ≡ goal.old.room }
{
    for pair in pairs {
        put(goal, *pair);
    }
}
