//! A part split in pieces, one for each component that has to choose anew.

ghost use Rattle.std.specs.Prelude.{◌≡◌, ◌≤◌, ◌<◌, IfOk, OnOk, OnErr, IfSome, IsNone, All, [], length, drop, take, slice_index_or, slice_set};
ghost use Rattle.std.specs.BinaryHeap.{IsHeap, heap_items, heap_len};
ghost use Rattle.cost_search.specs.SearchParts.{AreInstead, Gains, IsPart, IsReplaced, IsSpan, box_of, part_cmp, row_at};
ghost use Rattle.cca_base.specs.Prelude.{AreRows};

use crate::part::{Part, Span};
use cca_base::{Choice, List};
use std::alloc::{AllocError, Global};
use std::collections::BinaryHeap;

/// The span of the component.
pub fn span_of(rows: &[List<Choice>], part: &Part, at: usize) -> Span
    requires part { IsPart rows.now part.now }
    requires at { at < length rows.now }
    ensures item { result ≡ slice_index_or part.now.spans at result }
    ensures span { IsSpan (slice_index_or rows.now at []) result }
{
    *part.spans.get(at)
}

/// The states of the part in which the component does not have its first choice, if there are some.
pub fn onward(
    alloc: Global,
    rows: &[List<Choice>],
    part: &Part,
    at: usize,
) -> Result<Option<Part>, AllocError>
    requires rows { AreRows rows.now }
    requires part { IsPart rows.now part.now }
    requires at { at < length rows.now }
    ensures piece { IfOk result (λ o. IfSome o (IsPart rows.now)) }
    ensures states { IfOk result (λ o.
        IfSome o (λ p. box_of rows.now p
        ≡ slice_set (box_of rows.now part.now) at
        (drop 1 (row_at (box_of rows.now part.now) at)))) }
    ensures none { IfOk result (λ o. IsNone o → length (row_at (box_of rows.now part.now) at) ≤ 1) }
{
    let span = span_of(rows, part, at);
    let next = span.from + 1;
    if next == span.to {
        return Ok(None);
    }
    let first = *rows[at].get(span.from as usize);
    let second = *rows[at].get(next as usize);
    let mut modes = part.modes.copy(alloc)?;
    let mut spans = part.spans.copy(alloc)?;
    modes.set(at, second.mode);
    spans.set(
        at,
        Span {
            from: next,
            to: span.to,
        },
    );
    let cost = part.cost + second.cost - first.cost;
    Ok(Some(Part { cost, modes, spans }))
}

/// Leaves the component its first choice alone.
pub fn narrow(rows: &[List<Choice>], part: &mut Part, at: usize)
    requires part { IsPart rows.now part.old }
    requires at { at < length rows.now }
    ensures part { IsPart rows.now part.new }
    ensures states { box_of rows.now part.new
        ≡ slice_set (box_of rows.now part.old) at (take 1 (row_at (box_of rows.now part.old) at)) }
{
    let span = span_of(rows, part, at);
    part.spans.set(
        at,
        Span {
            from: span.from,
            to: span.from + 1,
        },
    );
}

/// Adds the states of the part in which the component does not have its first choice.
fn add_onward(
    alloc: Global,
    rows: &[List<Choice>],
    pieces: &mut BinaryHeap<Part>,
    part: &Part,
    at: usize,
) -> Result<(), AllocError>
    requires rows { AreRows rows.now }
    requires pieces { All (IsPart rows.now) (heap_items pieces.old) }
    requires part { IsPart rows.now part.now }
    requires at { at < length rows.now }
    ensures heap { OnOk result (IsHeap part_cmp (heap_items pieces.old) →
        IsHeap part_cmp (heap_items pieces.new)) }
    ensures gains { OnOk result (Gains rows.now (heap_items pieces.old) (heap_items pieces.new)
        (slice_set (box_of rows.now part.now) at (drop 1 (row_at (box_of rows.now part.now) at)))) }
{
    let Some(piece) = onward(alloc, rows, part, at)? else {
        return Ok(());
    };
    pieces.push(piece)?;
    Ok(())
}

/// Parts that have the states of the whole, but for those in which each of the components has its first choice.
pub fn pieces_of(
    alloc: Global,
    rows: &[List<Choice>],
    whole: &Part,
    components: &[u16],
) -> Result<BinaryHeap<Part>, AllocError>
    requires rows { AreRows rows.now }
    requires whole { IsPart rows.now whole.now }
    requires components { All (λ c. c < length rows.now) components.now }
    ensures heap { IfOk result (λ h. IsHeap part_cmp (heap_items h)) }
    ensures pieces { IfOk result (λ h.
        AreInstead rows.now (box_of rows.now whole.now) components.now (heap_items h)) }
{
    let mut pieces = BinaryHeap::new(alloc);
    let mut rest = whole.copy(alloc)?;
    for component in components {
        let at = *component as usize;
        add_onward(alloc, rows, &mut pieces, &rest, at)?;
        narrow(rows, &mut rest, at);
    }
    Ok(pieces)
}

/// Puts pieces in the place of the greatest part. After an error the parts are as before.
pub fn replace_top(
    parts: &mut BinaryHeap<Part>,
    pieces: &mut BinaryHeap<Part>,
) -> Result<(), AllocError>
    requires { 0 < heap_len parts.old }
    ensures ok { OnOk result (IsReplaced (heap_items parts.old) (heap_items pieces.old)
        (heap_items parts.new)) }
    ensures heap { OnOk result (IsHeap part_cmp (heap_items parts.old) →
        IsHeap part_cmp (heap_items parts.new)) }
    ensures err { OnErr result (heap_items parts.new ≡ heap_items parts.old) }
{
    parts.reserve(pieces.len())?;
    let _ = parts.pop();
    let _ = parts.append(pieces);
    Ok(())
}
