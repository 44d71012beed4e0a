//! The shown cycle: a shortest way back, found by distances.

ghost use Rattle.std.specs.Prelude.{◌≡◌, ◌<◌, ◌≤◌, ◌^◌, ℕ, All, Contains, IfOk, MatchOption, length, slice_index};
ghost use Rattle.cca_base.specs.Prelude.{IsShownCycleBy};
ghost use Rattle.cca_base.specs.declared.limits.TheConstants.{MAX_ROWS};
ghost use Rattle.causal_graph.specs.Needs.{AreRows, RowNeeds};
ghost use Rattle.causal_graph.specs.Search.{AreDistances, HasStuck, IsFirstCycle, IsNearest};

use crate::distance::distances;
use cca_base::List;
use std::alloc::{AllocError, Global};

/// The least number of the row that is at this distance.
fn nearest(row: &[u16], distances: &[u32], distance: u32) -> Option<u16>
    requires { All (λ u. u < length distances.now) row.now }
    ensures { MatchOption result
        ((u : ℕ) → Contains row.now u → slice_index distances.now u ≡ distance → ⊥)
        (IsNearest row.now distances.now distance) }
{
    let mut least: Option<u16> = None;
    for u in row {
        if distances[*u as usize] == distance {
            least = match least {
                Some(v) if v < *u => Some(v),
                _ => Some(*u),
            };
        }
    }
    least
}

/// The way from `t` back to it that has the fewest needs, and is the first of these entry by entry.
fn shortest(
    alloc: Global,
    needs: &List<List<u16>>,
    distances: &[u32],
    target: u16,
) -> Result<List<u16>, AllocError>
    requires rows { AreRows needs.now }
    requires distances { AreDistances needs.now target distances.now }
    requires cycle { 0 < slice_index distances.now target }
    ensures { IfOk result (IsFirstCycle needs.now target) }
{
    let mut cycle = List::new(alloc);
    cycle.push(target)?;
    let mut at = target;
    let mut left = distances[target as usize];
    'steps: while left > 1 {
        left -= 1;
        let Some(next) = nearest(needs.get(at as usize).as_slice(), distances, left) else {
            unreachable!()
        };
        at = next;
        cycle.push(at)?;
    }
    cycle.push(target)?;
    Ok(cycle)
}

/// The shown cycle of needs of which some each are needed by one of them.
pub(crate) fn shown_cycle(alloc: Global, needs: &List<List<u16>>) -> Result<List<u16>, AllocError>
    requires few { length needs.now ≤ MAX_ROWS }
    requires rows { AreRows needs.now }
    requires stuck { HasStuck needs.now }
    ensures { IfOk result (IsShownCycleBy (RowNeeds needs.now)) }
{
    'components: for c in 0..needs.len() {
        let to_it = distances(alloc, needs, c as u16)?;
        if to_it[c] > 0 {
            return shortest(alloc, needs, to_it.as_slice(), c as u16);
        }
    }
    unreachable!()
}
