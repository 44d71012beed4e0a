//! What the estimate costs from the last one and the last command.

ghost use Rattle.std.specs.Prelude.{◌↔◌, ◌++◌, ◌∷◌, [], IsTrue, IfOk, IfSome, List};
ghost use Rattle.cca_base.specs.Prelude.{Costs, IsChange, IsLeast, IsState};
ghost use Rattle.cca_base.specs.declared.model.Failure.{Failure};
ghost use Rattle.consistency.specs.Spaces.{IsWorldSpace};
ghost use Rattle.plan_checker.specs.Costs.{IsTotal};

use crate::states::is_state;
use crate::step::make_nominal;
use cca_base::{Failure, Model, State, lesser};
use consistency::{Rules, WorldSpace};
use std::alloc::AllocError;

/// The least cost of the component's failures between two modes, with one more failure taken in.
fn with_failure(
    least: Option<u32>,
    failure: &Failure,
    component: u16,
    from: u8,
    to: u8,
) -> Option<u32>
    ensures { (fs : List Failure) → IsLeast fs component from to least →
        IsLeast (fs ++ failure.now ∷ []) component from to result }
{
    if failure.component != component {
        return least;
    }
    if failure.source != from {
        return least;
    }
    if failure.target != to {
        return least;
    }
    Some(lesser(least, failure.cost))
}

/// The least cost of a failure of the component from one mode to another. None comes exactly where there is none.
fn least_cost(model: &Model, component: u16, from: u8, to: u8) -> Option<u32>
    ensures { IsLeast model.now.failures component from to result }
{
    let mut least: Option<u32> = None;
    for failure in model.failures().as_slice() {
        least = with_failure(least, failure, component, from, to);
    }
    least
}

/// What it costs the component to go from one mode to another. None comes exactly where it has no cost.
fn change_cost(model: &Model, component: u16, from: u8, nominal: u8, to: u8) -> Option<u32>
    ensures { IsChange model.now component from nominal to result }
{
    if to == nominal {
        return Some(0);
    }
    least_cost(model, component, from, to)
}

/// The sum of what the components cost. None comes exactly where one of them has no cost.
fn total(model: &Model, from: &State, nominal: &State, to: &State) -> Option<u64>
    requires from { IsState model.now from.now.modes }
    requires nominal { IsState model.now nominal.now.modes }
    requires to { IsState model.now to.now.modes }
    ensures { IsTotal model.now from.now.modes nominal.now.modes to.now.modes result }
{
    let mut sum: u64 = 0;
    for at in 0..model.components().len() {
        let from = *from.modes.get(at);
        let nominal = *nominal.modes.get(at);
        match change_cost(model, at as u16, from, nominal, *to.modes.get(at)) {
            Some(cost) => sum += cost as u64,
            None => return None,
        }
    }
    Some(sum)
}

/// Whether the state has this cost from the last one under the command. The error is out of memory.
pub(crate) fn has_cost(
    rules: &Rules,
    last: &State,
    command: Option<u16>,
    state: &State,
    cost: u64,
    space: &mut Option<WorldSpace>,
) -> Result<bool, AllocError>
    requires last { IsState rules.now.model.now last.now.modes }
    requires space { IfSome space.old (IsWorldSpace rules.now.worlds.now) }
    ensures cost { IfOk result (λ b.
        IsTrue b ↔ Costs rules.now.model.now last.now.modes command state.now.modes cost) }
    ensures space { IfSome space.new (IsWorldSpace rules.now.worlds.now) }
{
    let _moves = rules.model.moves();
    if !is_state(rules.model, state) {
        return Ok(false);
    }
    let mut nominal = last.copy(rules.alloc)?;
    make_nominal(rules, &mut nominal, command, space)?;
    match total(rules.model, last, &nominal, state) {
        Some(sum) => Ok(sum == cost),
        None => Ok(false),
    }
}
