//! Ancestors in rows of needs.

ghost use Rattle.std.specs.Prelude.{◌<◌, ◌≤◌, All, IfSome, length};
ghost use Rattle.cca_base.specs.declared.limits.TheConstants.{MAX_COMPONENTS};
ghost use Rattle.causal_graph.specs.Needs.{AreRows};

use causal_graph::ancestors;
use cca_base::{List, MAX_COMPONENTS};
use std::alloc::Global;
use std::test::*;

/// The row, whose numbers are all less than `n`.
fn row_of(alloc: Global, numbers: &[u16], n: usize) -> Option<List<u16>>
    ensures { IfSome result (All (λ u. u < n)) }
{
    let mut row = List::new(alloc);
    for u in numbers {
        if *u as usize >= n {
            return None;
        }
        row.push(*u).ok()?;
    }
    Some(row)
}

/// The rows, of which there are few, and whose numbers are all those of rows.
fn rows_of(alloc: Global, lists: &[&[u16]]) -> Option<List<List<u16>>>
    ensures few { IfSome result (λ rows. length rows ≤ MAX_COMPONENTS) }
    ensures rows { IfSome result AreRows }
{
    if lists.len() > MAX_COMPONENTS {
        return None;
    }
    let mut rows = List::new(alloc);
    for list in lists {
        let row = row_of(alloc, list, lists.len())?;
        rows.push(row).ok()?;
    }
    Some(rows)
}

/// The ancestors of the component in these rows.
fn ancestors_of(alloc: Global, lists: &[&[u16]], component: u16) -> Option<List<u16>> {
    let rows = rows_of(alloc, lists)?;
    if component as usize >= rows.len() {
        return None;
    }
    ancestors(alloc, &rows, component).ok()
}

/// Whether the component has these ancestors in these rows.
fn has_ancestors(alloc: Global, lists: &[&[u16]], component: u16, wanted: &[u16]) -> bool {
    match ancestors_of(alloc, lists, component) {
        Some(list) => list.as_slice() == wanted,
        None => false,
    }
}

#[test]
fn ancestors_are_reached_by_needs(rt: HostRuntime) {
    // The valve's only ancestor is its driver.
    assert!(rt; has_ancestors(rt.alloc(), &[&[], &[0]], 1, &[0]));
    let chain: [&[u16]; 4] = [&[1], &[2], &[], &[0]];
    assert!(rt; has_ancestors(rt.alloc(), &chain, 3, &[0, 1, 2]));
    assert!(rt; has_ancestors(rt.alloc(), &chain, 2, &[]));
    assert!(rt; has_ancestors(rt.alloc(), &[&[1], &[0]], 0, &[0, 1]));
}
