//! The shown clash: of the first state without a world, the pairs that are needed for it, by deletion.

ghost use Rattle.std.specs.Prelude.{IfOk};
ghost use Rattle.acceptance.specs.Clashes.{IsClashOrNone};
ghost use Rattle.guard_compiler.specs.Rules.{AreRulesOf};

use crate::falsified::first_false;
use cca_base::{Cube, List, Model, Seen};
use consistency::conflict;
use guard_compiler::{RuleClause, worlds_of};
use std::alloc::{AllocError, Global};

/// The shown clash: what is to blame that the first state in mode order without a world has none. None comes exactly
/// where every state has a world.
pub fn clash(
    alloc: Global,
    model: &Model,
    rules: &List<RuleClause>,
) -> Result<Option<Cube>, AllocError>
    requires { AreRulesOf model.now rules.now }
    ensures { IfOk result (IsClashOrNone model.now) }
{
    let states = worlds_of(alloc, model, rules)?;
    let Some(state) = first_false(alloc, &states)? else {
        return Ok(None);
    };
    let nothing = Seen {
        pairs: List::new(alloc),
    };
    let cube = conflict(alloc, model, &state, &nothing)?;
    Ok(cube)
}
