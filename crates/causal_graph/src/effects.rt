//! Components effects first: a topological sort that takes the greatest number that nothing left needs.

ghost use Rattle.std.specs.Prelude.{◌<◌, ◌≤◌, All, IfOk, MatchOption, length};
ghost use Rattle.cca_base.specs.Prelude.{IsEffectsFirstBy, IsSet};
ghost use Rattle.cca_base.specs.declared.limits.TheConstants.{MAX_ROWS};
ghost use Rattle.causal_graph.specs.Needs.{AreRows, RowNeeds};
ghost use Rattle.causal_graph.specs.Search.{AreNeeded, HasStuck, IsFirstUnset};

use crate::flags::mark;
use cca_base::{List, numbers_below};
use std::alloc::{AllocError, Global};

/// For each component, whether a remaining one needs it.
fn needed(
    alloc: Global,
    needs: &List<List<u16>>,
    remaining: &[u16],
) -> Result<Vec<bool>, AllocError>
    requires rows { AreRows needs.now }
    requires within { All (λ c. c < length needs.now) remaining.now }
    ensures { IfOk result (λ v. AreNeeded needs.now remaining.now v.items) }
{
    let mut flags = vec![in alloc; false; needs.len()]?;
    for c in remaining {
        mark(needs.get(*c as usize).as_slice(), flags.as_mut_slice());
    }
    Ok(flags)
}

/// The first place of a component that no remaining one needs.
fn first_free(remaining: &[u16], needed: &[bool]) -> Option<usize>
    requires { All (λ c. c < length needed.now) remaining.now }
    ensures { MatchOption result (All (IsSet needed.now) remaining.now)
        (IsFirstUnset needed.now remaining.now) }
{
    for (i, c) in remaining.iter().enumerate() {
        if !needed[*c as usize] {
            return Some(i);
        }
    }
    None
}

/// All components, effects before their causes, or `None` where some of them each are needed by one of them.
pub(crate) fn effects_first(
    alloc: Global,
    needs: &List<List<u16>>,
) -> Result<Option<List<u16>>, AllocError>
    requires few { length needs.now ≤ MAX_ROWS }
    requires rows { AreRows needs.now }
    ensures { IfOk result
        (λ o. MatchOption o (HasStuck needs.now)
        (IsEffectsFirstBy (RowNeeds needs.now) (length needs.now))) }
{
    let mut remaining = numbers_below(alloc, needs.len())?;
    let mut order = List::new(alloc);
    'taking: while !remaining.is_empty() {
        let flags = needed(alloc, needs, remaining.as_slice())?;
        let Some(at) = first_free(remaining.as_slice(), flags.as_slice()) else {
            return Ok(None);
        };
        let c = remaining.remove(at);
        order.push(c)?;
    }
    Ok(Some(order))
}
