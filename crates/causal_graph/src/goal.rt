//! A goal's pairs in effects-first order.

ghost use Rattle.std.specs.Prelude.{◌≡◌, ◌<◌, ◌≤◌, All, Contains, IfOk, MatchOption, length};
ghost use Rattle.cca_base.specs.Prelude.{IsCube, IsSorted, Lacks};

use bounded_list::BoundedList;
use cca_base::{Compiled, Goal, List, Pair};
use std::alloc::{AllocError, Global};

/// The pair of the component.
fn pair_of(pairs: &[Pair], component: u16) -> Option<Pair>
    ensures { MatchOption result (Lacks component pairs.now) (λ p.
        Contains pairs.now p × (p.item ≡ component)) }
{
    for pair in pairs {
        if pair.item == component {
            return Some(*pair);
        }
    }
    None
}

/// Leaves the same pairs in the list, effects before their causes. It takes no memory.
pub fn sort_into(compiled: &Compiled, pairs: &[Pair], sorted: &mut BoundedList<Pair>)
    requires once { IsCube pairs.now }
    requires within { All (λ p. p.item < length compiled.now.model.components) pairs.now }
    requires room { length compiled.now.order ≤ sorted.old.room }
    ensures sorted { IsSorted compiled.now.order pairs.now sorted.new.items }
    ensures once { IsCube sorted.new.items }
    ensures room { sorted.new.room ≡ sorted.old.room }
{
    let order = compiled.order();
    sorted.clear();
    for i in 0..order.len() {
        if let Some(pair) = pair_of(pairs, *order.get(i)) {
            sorted.push(pair);
        }
    }
}

/// The same pairs as a goal, effects before their causes. The error is out of memory.
pub fn sort_goal(alloc: Global, compiled: &Compiled, pairs: &List<Pair>) -> Result<Goal, AllocError>
    requires once { IsCube pairs.now }
    requires within { All (λ p. p.item < length compiled.now.model.components) pairs.now }
    ensures sorted { IfOk result (λ goal. IsSorted compiled.now.order pairs.now goal.pairs) }
    ensures once { IfOk result (λ goal. IsCube goal.pairs) }
{
    let mut sorted = BoundedList::with_room(alloc, compiled.order().len())?;
    sort_into(compiled, pairs.as_slice(), &mut sorted);
    Ok(Goal {
        pairs: List::of(sorted.into_vec()),
    })
}
