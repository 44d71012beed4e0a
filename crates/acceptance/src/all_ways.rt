//! The prime implicants of all moves, one move after the other, up to the first that has too many.

ghost use Rattle.std.specs.Prelude.{IfErr, IfOk};
ghost use Rattle.cca_base.specs.Prelude.{HasWorlds};
ghost use Rattle.acceptance.specs.AllWays.{AreAllWays, IsFirstStop};
ghost use Rattle.guard_compiler.specs.Rules.{AreRulesOf};

use cca_base::{Cube, List, Model, Stop};
use guard_compiler::{RuleClause, ways_of};
use std::alloc::Global;

/// The prime implicants of each move, in cube order. The first move that has too many is refused; the other error is want
/// of memory.
pub fn all_ways(
    alloc: Global,
    model: &Model,
    rules: &List<RuleClause>,
) -> Result<List<List<Cube>>, Stop>
    requires worlds { HasWorlds model.now }
    requires rules { AreRulesOf model.now rules.now }
    ensures ways { IfOk result (AreAllWays model.now) }
    ensures refused { IfErr result (IsFirstStop model.now) }
{
    let mut all = List::new(alloc);
    for i in 0..model.moves().len() {
        let cubes = ways_of(alloc, model, rules, i as u16)?;
        all.push(cubes)?;
    }
    Ok(all)
}
