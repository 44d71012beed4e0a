//! Whether a move's guard follows from what the move may lean on, or holds in a state. The memory in which worlds are sought is made at the
//! first guard that asks the rules, and is kept for the others.

ghost use Rattle.std.specs.Prelude.{◌≡◌, ◌↔◌, length, All, IsTrue, IfOk, IfSome, Contains};
ghost use Rattle.cca_base.specs.Prelude.{is_within, support, Follows, HasMode, Holds, IsState};
ghost use Rattle.consistency.specs.Spaces.{IsWorldSpace};
ghost use Rattle.plan_checker.specs.Steps.{AreSupport, IsNamed};

use crate::known::{Support, is_leaned_on, is_sure};
use cca_base::{Cube, Formula, Move, Pair, State};
use consistency::{Denied, Rules, WorldSpace, all_pairs};
use std::alloc::{AllocError, Global};
use std::mem;

/// The pairs of the state that the move may lean on. The error is out of memory.
fn support_pairs(alloc: Global, known: &Support) -> Result<Cube, AllocError>
    requires { IsState known.now.model.now known.now.state.now.modes }
    ensures { IfOk result (AreSupport known.now.model.now known.now.state.now.modes known.now.own) }
{
    let mut pairs = Cube::new(alloc);
    for item in 0..known.model.components().len() as u16 {
        let value = *known.state.modes.get(item as usize);
        if is_leaned_on(known, item, value) {
            pairs.push(Pair { item, value })?;
        }
    }
    Ok(pairs)
}

/// The memory that was made, or a new one. The error is out of memory.
fn space_of(rules: &Rules, made: Option<WorldSpace>) -> Result<WorldSpace, AllocError>
    requires { IfSome made (IsWorldSpace rules.now.worlds.now) }
    ensures { IfOk result (IsWorldSpace rules.now.worlds.now) }
{
    match made {
        Some(space) => Ok(space),
        None => rules.worlds.space(rules.alloc),
    }
}

/// Whether the formula follows from the modes by the rules. The error is out of memory.
fn follows(
    rules: &Rules,
    modes: &Cube,
    formula: &Formula,
    space: &mut Option<WorldSpace>,
) -> Result<bool, AllocError>
    requires modes { All (λ p. HasMode rules.now.model.now p.item p.value) modes.now }
    requires formula { IsTrue (is_within (length rules.now.model.now.components)
        (length rules.now.model.now.variables) formula.now) }
    requires space { IfSome space.old (IsWorldSpace rules.now.worlds.now) }
    ensures follows { IfOk result (λ b.
        IsTrue b ↔ Follows rules.now.model.now modes.now formula.now) }
    ensures space { IfSome space.new (IsWorldSpace rules.now.worlds.now) }
{
    let denied = Denied::of(rules.alloc, rules.model, formula)?;
    let mut memory = space_of(rules, mem::replace(space, None))?;
    let answer = rules
        .worlds
        .follows_by(rules.model, modes, &denied, &mut memory);
    *space = Some(memory);
    Ok(answer)
}

/// Whether the guard follows from what the move may lean on in the state. The rules are asked only where the modes alone don't make
/// it true. The error is out of memory.
pub(crate) fn guard_follows(
    rules: &Rules,
    state: &State,
    step: &Move,
    space: &mut Option<WorldSpace>,
) -> Result<bool, AllocError>
    requires state { IsState rules.now.model.now state.now.modes }
    requires named { IsNamed rules.now.model.now state.now.modes step.now.command step.now }
    requires space { IfSome space.old (IsWorldSpace rules.now.worlds.now) }
    ensures follows { IfOk result (λ b.
        IsTrue b ↔ Follows rules.now.model.now
        (support rules.now.model.now state.now.modes step.now) step.now.guard) }
    ensures space { IfSome space.new (IsWorldSpace rules.now.worlds.now) }
{
    let _moves = rules.model.moves();
    let known = Support {
        model: rules.model,
        state,
        own: step.component,
    };
    if is_sure(&known, &step.guard, true) {
        return Ok(true);
    }
    let modes = support_pairs(rules.alloc, &known)?;
    follows(rules, &modes, &step.guard, space)
}

/// Whether the guard is true in every world of the state. The error is out of memory.
pub(crate) fn guard_holds(
    rules: &Rules,
    state: &State,
    step: &Move,
    space: &mut Option<WorldSpace>,
) -> Result<bool, AllocError>
    requires state { IsState rules.now.model.now state.now.modes }
    requires of_model { Contains rules.now.model.now.moves step.now }
    requires space { IfSome space.old (IsWorldSpace rules.now.worlds.now) }
    ensures holds { IfOk result (λ b.
        IsTrue b ↔ Holds rules.now.model.now state.now.modes step.now.guard) }
    ensures space { IfSome space.new (IsWorldSpace rules.now.worlds.now) }
{
    let _moves = rules.model.moves();
    let modes = all_pairs(rules.alloc, rules.model, state)?;
    follows(rules, &modes, &step.guard, space)
}
