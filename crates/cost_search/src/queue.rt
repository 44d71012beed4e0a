//! The queue of parts. Its head is split by the partition of Murty and Lawler until its first state is still to be given.

ghost use Rattle.std.specs.Prelude.{◌≡◌, ◌<◌, ◌≤◌, ◌↔◌, map, IsTrue, IfOk, OnOk, IfSome, IsNone, All, Contains, length, ℕ};
ghost use Rattle.std.specs.BinaryHeap.{IsHeap, heap_items, heap_len};
ghost use Rattle.cca_base.specs.Prelude.{AreRows};
ghost use Rattle.cca_base.specs.declared.limits.TheConstants.{MAX_ROWS};
ghost use Rattle.cost_search.specs.SearchParts.{IsPart, part_cmp};
ghost use Rattle.cost_search.specs.Queue.{Covers, IsBlocked, MayBeGiven, IsQueue, Replaces, TopMayBeGiven};
ghost use Rattle.cost_search.specs.Search.{IsAfterLast};

use crate::costed::Costed;
use crate::part::Part;
use crate::split::{pieces_of, replace_top};
use cca_base::{Choice, Cube, List, Pair, numbers_below};
use std::alloc::{AllocError, Global};
use std::collections::BinaryHeap;

/// Whether the part's first state comes after the last one given.
fn is_after(last: &Option<Costed>, part: &Part) -> bool
    ensures { IsTrue result ↔ IsAfterLast last.now part.now.modes part.now.cost }
{
    match last {
        None => true,
        Some(given) => {
            let modes = given.state.modes.as_slice();
            let order = given
                .cost
                .cmp(&part.cost)
                .then(modes.cmp(part.modes.as_slice()));
            order.is_lt()
        }
    }
}

/// The components of the pairs.
fn components_of(alloc: Global, cube: &[Pair]) -> Result<Vec<u16>, AllocError>
    ensures { IfOk result (λ v. v.items ≡ map (λ p. p.item) cube.now) }
{
    let mut components = Vec::new(alloc);
    for pair in cube {
        components.push(pair.item)?;
    }
    Ok(components)
}

/// Components of which one has to choose anew, where the part's first state was given or is cut.
fn blocked_by(
    alloc: Global,
    part: &Part,
    last: &Option<Costed>,
    cuts: &[Cube],
) -> Result<Option<Vec<u16>>, AllocError>
    requires { length part.now.modes ≤ MAX_ROWS }
    ensures some { IfOk result (λ o.
        IfSome o (λ v. IsBlocked last.now cuts.now part.now.modes part.now.cost v.items)) }
    ensures within { IfOk result (λ o.
        IfSome o (λ v. All (λ c. c < length part.now.modes) v.items)) }
    ensures none { IfOk result (λ o.
        IsNone o → MayBeGiven last.now cuts.now part.now.modes part.now.cost) }
{
    let modes = part.modes.as_slice();
    for cube in cuts {
        if cube.stands_in(modes) {
            return Ok(Some(components_of(alloc, cube.as_slice())?));
        }
    }
    if !is_after(last, part) {
        return Ok(Some(numbers_below(alloc, modes.len())?));
    }
    Ok(None)
}

/// Parts to put in the place of the greatest part, where its first state was given or is cut.
fn pieces_of_top(
    alloc: Global,
    rows: &[List<Choice>],
    parts: &BinaryHeap<Part>,
    last: &Option<Costed>,
    cuts: &[Cube],
) -> Result<Option<BinaryHeap<Part>>, AllocError>
    requires rows { AreRows rows.now }
    requires queue { IsQueue rows.now (heap_items parts.now) }
    ensures heap { IfOk result (λ o. IfSome o (λ h. IsHeap part_cmp (heap_items h))) }
    ensures some { IfOk result (λ o.
        IfSome o (λ h. Replaces rows.now last.now cuts.now (heap_items parts.now) (heap_items h))) }
    ensures none { IfOk result (λ o.
        IsNone o → TopMayBeGiven last.now cuts.now (heap_items parts.now)) }
{
    let Some(top) = parts.peek() else {
        return Ok(None);
    };
    let Some(components) = blocked_by(alloc, top, last, cuts)? else {
        return Ok(None);
    };
    Ok(Some(pieces_of(alloc, rows, top, components.as_slice())?))
}

/// Splits parts until the greatest one's first state is still to be given, or no part is left. Also after an error no
/// state that is still to be given is lost.
pub fn settle_part(
    alloc: Global,
    rows: &[List<Choice>],
    parts: &mut BinaryHeap<Part>,
    last: &Option<Costed>,
    cuts: &[Cube],
) -> Result<(), AllocError>
    requires rows { AreRows rows.now }
    requires queue { IsQueue rows.now (heap_items parts.old) }
    ensures queue { IsQueue rows.now (heap_items parts.new) }
    ensures covers { Covers rows.now last.now cuts.now (heap_items parts.old) →
        Covers rows.now last.now cuts.now (heap_items parts.new) }
    ensures ok { OnOk result (TopMayBeGiven last.now cuts.now (heap_items parts.new)) }
{
    while let Some(mut pieces) = pieces_of_top(alloc, rows, parts, last, cuts)? {
        replace_top(parts, &mut pieces)?;
    }
    Ok(())
}
