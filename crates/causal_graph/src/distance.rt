//! Distances to a component, by rounds of breadth-first search backwards.

ghost use Rattle.std.specs.Prelude.{◌≡◌, ◌+◌, ◌<◌, ◌≤◌, ◌↔◌, ℕ, All, Contains, IfOk, IsTrue, MatchBool, length, slice_index};
ghost use Rattle.cca_base.specs.declared.limits.TheConstants.{MAX_ROWS};
ghost use Rattle.causal_graph.specs.Needs.{AreRows};
ghost use Rattle.causal_graph.specs.Search.{AreDirect, AreDistances, IsFarther, unreached};

use cca_base::List;
use std::alloc::{AllocError, Global};

/// 1 for each component that needs `t`, and 0 for the others.
fn direct(alloc: Global, needs: &List<List<u16>>, target: u16) -> Result<Vec<u32>, AllocError>
    ensures { IfOk result (λ v. AreDirect needs.now target v.items) }
{
    let mut distances = Vec::new(alloc);
    for row in needs.as_slice() {
        let needs_it = row.as_slice().contains(&target);
        distances.push(if needs_it { 1 } else { 0 })?;
    }
    Ok(distances)
}

/// Whether a number of the row is at this distance.
fn leads_to(row: &[u16], distances: &[u32], distance: u32) -> bool
    requires { All (λ u. u < length distances.now) row.now }
    ensures { IsTrue result ↔ ((u : ℕ) × Contains row.now u
        × (slice_index distances.now u ≡ distance)) }
{
    row.iter().any(|u| distances[*u as usize] == distance)
}

/// Gives the distance behind `level` to those that need one at `level` and are at no distance yet, and says whether there
/// is one.
fn farther(needs: &List<List<u16>>, distances: &mut [u32], level: u32) -> bool
    requires few { length needs.now ≤ MAX_ROWS }
    requires rows { AreRows needs.now }
    requires full { length distances.old ≡ length needs.now }
    requires positive { 0 < level }
    requires low { level ≤ length needs.now + 1 }
    ensures step { IsFarther needs.now level distances.old distances.new }
    ensures fewer { MatchBool result
        (unreached distances.new < unreached distances.old) (distances.new ≡ distances.old) }
{
    let mut found = false;
    for v in 0..needs.len() {
        if distances[v] == 0 && leads_to(needs.get(v).as_slice(), distances, level) {
            distances[v] = level + 1;
            found = true;
        }
    }
    found
}

/// How many needs lead at least from each component to `t`, and 0 where none do.
pub(crate) fn distances(
    alloc: Global,
    needs: &List<List<u16>>,
    target: u16,
) -> Result<Vec<u32>, AllocError>
    requires few { length needs.now ≤ MAX_ROWS }
    requires rows { AreRows needs.now }
    ensures { IfOk result (λ v. AreDistances needs.now target v.items) }
{
    let mut distances = direct(alloc, needs, target)?;
    let mut level = 1;
    'levels: while farther(needs, distances.as_mut_slice(), level) {
        level += 1;
    }
    Ok(distances)
}
