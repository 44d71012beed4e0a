//! The part of all states, with which a search begins.

ghost use Rattle.std.specs.Prelude.{◌≡◌, IfOk, IfSome, IsNone, Contains, List, length, ◌<◌, ◌^◌};
ghost use Rattle.std.specs.List.{AllZip};
ghost use Rattle.cca_base.specs.Prelude.{AreRows, IsRow};
ghost use Rattle.cca_base.specs.declared.choice.Choice.{Choice};
ghost use Rattle.cost_search.specs.SearchParts.{IsIn, IsPart, box_of};
ghost use Rattle.cost_search.specs.Queue.{IsQueue};
ghost use Rattle.std.specs.BinaryHeap.{heap_items};

use crate::part::{Part, Span};
use cca_base::{Choice, List};
use std::alloc::{AllocError, Global};
use std::collections::BinaryHeap;

/// The choice's mode, which is a byte.
fn mode_of(choice: &Choice) -> u8
    ensures { choice.now.mode < 2 ^ 8 }
{
    choice.mode
}

/// How many choices the row has. Each has a mode of its own, so they are few enough for the count.
fn count_of(row: &[Choice]) -> u16
    requires { IsRow row.now }
    ensures { result ≡ length row.now }
{
    let mut count = 0;
    for choice in row {
        let _ = mode_of(choice);
        count += 1;
    }
    count
}

/// The part of all states. None comes exactly where some row has no choice.
pub fn whole_part(alloc: Global, rows: &[List<Choice>]) -> Result<Option<Part>, AllocError>
    requires { AreRows rows.now }
    ensures part { IfOk result (λ o. IfSome o (IsPart rows.now)) }
    ensures all { IfOk result (λ o. IfSome o (λ p. box_of rows.now p ≡ rows.now)) }
    ensures none { IfOk result (λ o.
        IsNone o → (picks : List Choice) → AllZip Contains rows.now picks → ⊥) }
{
    let mut cost = 0;
    let mut modes = List::new(alloc);
    let mut spans = List::new(alloc);
    for row in rows {
        let to = count_of(row.as_slice());
        if to == 0 {
            return Ok(None);
        }
        let first = *row.get(0);
        cost += first.cost;
        modes.push(first.mode)?;
        spans.push(Span { from: 0, to })?;
    }
    Ok(Some(Part { cost, modes, spans }))
}

/// All states, in one part if there are any.
pub fn all_states(alloc: Global, rows: &[List<Choice>]) -> Result<BinaryHeap<Part>, AllocError>
    requires { AreRows rows.now }
    ensures queue { IfOk result (λ h. IsQueue rows.now (heap_items h)) }
    ensures all { IfOk result (λ h.
        (picks : List Choice) → AllZip Contains rows.now picks →
        IsIn rows.now (heap_items h) picks) }
{
    let mut parts = BinaryHeap::new(alloc);
    let Some(part) = whole_part(alloc, rows)? else {
        return Ok(parts);
    };
    parts.push(part)?;
    Ok(parts)
}
