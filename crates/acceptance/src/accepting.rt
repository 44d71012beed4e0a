//! A model is compiled, or refused with the least code that applies.

ghost use Rattle.std.specs.Prelude.{◌≡◌, [], ◌∷◌, IfErr, IfOk};
ghost use Rattle.cca_base.specs.Prelude.{Accepted, IsCompiled, IsComplete};
ghost use Rattle.acceptance.specs.Refusals.{HandsBack, IsMemory};
ghost use Rattle.acceptance.specs.Pieces.{ArePieces, IsStop};
ghost use Rattle.guard_compiler.specs.Rules.{AreRulesOf};

use crate::all_ways::all_ways;
use crate::bounds::{Bounds, bounds_of};
use crate::clash::clash;
use crate::needs::needs_of;
use causal_graph::{Order, order};
use cca_base::codes::{CLASH, CYCLE, DEEP};
use cca_base::{Compiled, Cube, Detail, List, Model, Refusal, Stop};
use guard_compiler::{RuleClause, rules_of};
use std::alloc::{AllocError, Global};

/// Why a model is not compiled.
#[derive(Debug, Drop)]
pub enum NotAccepted {
    /// The model is refused, and handed back.
    Refused { refusal: Refusal, model: Model },
    /// Memory ran out, and the model is gone.
    Memory,
}

/// What is compiled from a model.
#[derive(Drop)]
struct Pieces {
    ways: List<List<Cube>>,
    order: List<u16>,
    bounds: List<u64>,
}

/// The refusal with this code and what it names.
fn refused(code: u8, detail: Detail) -> Stop
    ensures { result ≡ Stop.Refused (record { code = code; detail = detail }) }
{
    Stop::Refused(Refusal { code, detail })
}

/// The list of one number. The error is out of memory.
fn one(alloc: Global, component: u16) -> Result<List<u16>, AllocError>
    ensures { IfOk result (λ list. list ≡ component ∷ []) }
{
    let mut list = List::new(alloc);
    list.push(component)?;
    Ok(list)
}

/// What is compiled from the model by the clauses of its rules, or the first refusal that applies; or memory ran out.
fn parts_by(alloc: Global, model: &Model, rules: &List<RuleClause>) -> Result<Pieces, Stop>
    requires complete { IsComplete model.now }
    requires rules { AreRulesOf model.now rules.now }
    ensures compiled { IfOk result (ArePieces model.now) }
    ensures refused { IfErr result (IsStop model.now) }
{
    if let Some(cube) = clash(alloc, model, rules)? {
        return Err(refused(CLASH, Detail::Pairs(cube)));
    }
    let ways = all_ways(alloc, model, rules)?;
    let needs = needs_of(alloc, model, &ways)?;
    match order(alloc, &needs)? {
        Order::Cycle(list) => Err(refused(CYCLE, Detail::Components(list))),
        Order::Effects(order) => match bounds_of(alloc, model, &needs, &order)? {
            Bounds::PassAt(c) => Err(refused(DEEP, Detail::Components(one(alloc, c)?))),
            Bounds::Fit(bounds) => Ok(Pieces {
                ways,
                order,
                bounds,
            }),
        },
    }
}

/// The same, from the model alone.
fn parts_of(alloc: Global, model: &Model) -> Result<Pieces, Stop>
    requires complete { IsComplete model.now }
    ensures compiled { IfOk result (ArePieces model.now) }
    ensures refused { IfErr result (IsStop model.now) }
{
    let rules = rules_of(alloc, model)?;
    parts_by(alloc, model, &rules)
}

/// The model with its moves' prime implicants, its order and its bounds. It is refused exactly where it is not accepted,
/// with the first code that applies: 9 where a state has no world, 10 where a move has too many prime implicants, 11
/// where the needs have a cycle, and 12 where the bounds add up to too much. The other error is out of memory.
pub fn accept(alloc: Global, model: Model) -> Result<Compiled, NotAccepted>
    requires complete { IsComplete model }
    ensures compiled { IfOk result (λ c. (c.model ≡ model) × IsCompiled c) }
    ensures refused { IfErr result (HandsBack model) }
    ensures accepted { Accepted model → IfErr result IsMemory }
{
    match parts_of(alloc, &model) {
        Ok(parts) => Ok(Compiled::new(model, parts.ways, parts.order, parts.bounds)),
        Err(Stop::Refused(refusal)) => Err(NotAccepted::Refused { refusal, model }),
        Err(Stop::Memory) => Err(NotAccepted::Memory),
    }
}
