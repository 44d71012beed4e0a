//! The ancestors of a component, by rounds of breadth-first search.

ghost use Rattle.std.specs.Prelude.{◌≡◌, ◌<◌, IfOk, MatchBool, length};
ghost use Rattle.causal_graph.specs.Needs.{AreAncestors, AreRows};
ghost use Rattle.causal_graph.specs.Search.{AreNarrow, AreReached, Spreads};
ghost use Rattle.cca_base.specs.Prelude.{unset};

use crate::flags::mark;
use cca_base::List;
use std::alloc::{AllocError, Global};

/// Sets the flags of what those need whose flags are set, and says whether one was not set before.
fn spread(needs: &List<List<u16>>, flags: &mut [bool]) -> bool
    requires rows { AreRows needs.now }
    requires full { length flags.old ≡ length needs.now }
    ensures spreads { Spreads needs.now flags.old flags.new }
    ensures narrow { AreNarrow flags.old → AreNarrow flags.new }
    ensures fresh { MatchBool result (unset flags.new < unset flags.old) (flags.new ≡ flags.old) }
{
    let mut fresh = false;
    for c in 0..needs.len() {
        if flags[c] && mark(needs.get(c).as_slice(), flags) {
            fresh = true;
        }
    }
    fresh
}

/// For each component, whether `c` reaches it by one or more needs.
fn reached(alloc: Global, needs: &List<List<u16>>, component: u16) -> Result<Vec<bool>, AllocError>
    requires rows { AreRows needs.now }
    requires within { component < length needs.now }
    ensures reached { IfOk result (λ v. AreReached needs.now component v.items) }
    ensures narrow { IfOk result (λ v. AreNarrow v.items) }
{
    let mut flags = vec![in alloc; false; needs.len()]?;
    mark(
        needs.get(component as usize).as_slice(),
        flags.as_mut_slice(),
    );
    'rounds: while spread(needs, flags.as_mut_slice()) {}
    Ok(flags)
}

/// The components that `c` reaches by one or more needs, rising, each once. Row d of `needs` lists the components that d
/// needs, in any order. The error is out of memory.
pub fn ancestors(alloc: Global, needs: &List<List<u16>>, c: u16) -> Result<List<u16>, AllocError>
    requires rows { AreRows needs.now }
    requires within { c < length needs.now }
    ensures { IfOk result (AreAncestors needs.now c) }
{
    let flags = reached(alloc, needs, c)?;
    let mut list = List::new(alloc);
    for u in 0..flags.len() {
        if flags[u] {
            list.push(u as u16)?;
        }
    }
    Ok(list)
}
