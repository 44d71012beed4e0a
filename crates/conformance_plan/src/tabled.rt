//! Tables of models, with states that they cover and goals for them.

ghost use Rattle.std.specs.Prelude.{◌≡◌, ◌<◌, ◌≤◌, ◌+◌, false, All, IfSome, IsTrue, length, slice_index};
ghost use Rattle.cca_base.specs.Prelude.{is_broken, AreReached, HasMode, IsInChain};
ghost use Rattle.plan_runner.specs.WaysBack.{StaysStuck};
ghost use Rattle.planner_step.specs.Planning.{IsGoal};
ghost use Rattle.planner_step.specs.Served.{IsStuck};
ghost use Rattle.reversibility.specs.ClassParts.{CoversState};

use acceptance::accept;
use causal_graph::sort_goal;
use cca_base::*;
use conformance_parts::{Pairs, has_mode, model_of, pairs_of, state_of};
use planner_step::{Answer, next_command};
use policy_tables::Tables;
use reversibility::Classes;
use std::alloc::Global;
use std::marker::Brand;
use std::rc::Rc;
use std::sync::ledger::{Blank, Ledger};

/// What is compiled of the model of this text.
fn compiled_of(alloc: Global, text: &str) -> Option<Compiled> {
    let model = model_of(alloc, text)?;
    accept(alloc, model).ok()
}

/// The classes of the compiled model around the state of these modes.
fn classes_around(alloc: Global, compiled: &Rc<Compiled>, modes: &[u8]) -> Option<Classes> {
    let state = state_of(alloc, compiled.model(), modes)?;
    Classes::of(alloc, compiled, &state).ok()
}

fn shared(alloc: Global, compiled: Compiled) -> Option<Rc<Compiled>> {
    Rc::new(alloc, compiled).ok()
}

/// The classes of the model of this text around the state of these modes.
pub fn classes_of(alloc: Global, text: &str, modes: &[u8]) -> Option<Classes> {
    let compiled = compiled_of(alloc, text)?;
    let compiled = shared(alloc, compiled)?;
    classes_around(alloc, &compiled, modes)
}

fn made(alloc: Global, classes: Classes) -> Option<Tables> {
    Tables::of(alloc, classes).ok()
}

/// The tables of the model of this text around the state of these modes.
pub fn tables_of(alloc: Global, text: &str, modes: &[u8]) -> Option<Tables> {
    let classes = classes_of(alloc, text, modes)?;
    made(alloc, classes)
}

/// The state of these modes, which the tables cover.
pub fn covered(alloc: Global, tables: &Tables, modes: &[u8]) -> Option<State>
    ensures { IfSome result (λ s. CoversState tables.now.classes s.modes) }
{
    let classes = tables.classes();
    let state = state_of(alloc, classes.compiled().model(), modes)?;
    if !classes.covers(&state) {
        return None;
    }
    Some(state)
}

/// Whether the component, if it is broken in the second state and can't be mended, stands in the first on the chain of its mode there.
fn stays_on_chain(tables: &Tables, from: &State, to: &State, component: u16) -> bool
    requires from { CoversState tables.now.classes from.now.modes }
    requires to { CoversState tables.now.classes to.now.modes }
    requires within { component < length tables.now.classes.compiled.model.components }
    ensures { IsTrue result → IsStuck tables.now.classes to.now.modes component
        → IsInChain tables.now.classes.compiled.model.moves component
        (slice_index to.now.modes component) (slice_index from.now.modes component) }
{
    let classes = tables.classes();
    let model = classes.compiled().model();
    let mode = *to.modes.get(component as usize);
    if !model.broken(component, mode) {
        return true;
    }
    if classes.mendable(component) {
        return true;
    }
    model.is_in_chain(component, mode, *from.modes.get(component as usize))
}

/// Whether what is broken in the second state and can't be mended stands in the first on the chain of its mode there.
pub fn stays_stuck(tables: &Tables, from: &State, to: &State) -> bool
    requires from { CoversState tables.now.classes from.now.modes }
    requires to { CoversState tables.now.classes to.now.modes }
    ensures { IsTrue result → StaysStuck tables.now.classes from.now.modes to.now.modes }
{
    let classes = tables.classes();
    let model = classes.compiled().model();
    for c in 0..model.components().len() {
        if !stays_on_chain(tables, from, to, c as u16) {
            return false;
        }
    }
    true
}

fn are_sound(model: &Model, pairs: &[Pair]) -> bool
    ensures modes { IsTrue result → All (λ p. HasMode model.now p.item p.value) pairs.now }
    ensures sound { IsTrue result →
        All (λ p. is_broken model.now.moves p.item p.value ≡ false) pairs.now }
{
    pairs.iter().all(|p| has_mode(model, p.item, p.value) && !model.broken(p.item, p.value))
}

/// The sorted goal of these pairs.
pub fn goal_of(alloc: Global, tables: &Tables, pairs: Pairs<'_>) -> Option<Goal>
    ensures { IfSome result (λ g. IsGoal tables.now.classes.compiled g.pairs) }
{
    let compiled = tables.classes().compiled();
    let list = pairs_of(alloc, compiled.model(), pairs)?;
    let goal = sort_goal(alloc, compiled, &list).ok()?;
    if !are_sound(compiled.model(), goal.pairs.as_slice()) {
        return None;
    }
    Some(goal)
}

fn is_reached_by<L: Ledger>(tables: &Tables, state: &State, goal: &Goal, blank: Blank) -> bool
    requires name { blank.name ≡ L.name }
    requires parts { blank.parts ≡ L.parts }
    requires some { 0 < blank.parts }
    requires covers { CoversState tables.now.classes state.now.modes }
    requires goal { IsGoal tables.now.classes.compiled goal.now.pairs }
    ensures { IsTrue result →
        AreReached tables.now.classes.compiled.model state.now.modes goal.now.pairs }
{
    let mut steps = Steps::<L>::of(blank);
    match next_command(tables, state, goal, &mut steps) {
        Answer::Send(_) | Answer::Achieved => true,
        Answer::Unreachable(..) => false,
    }
}

/// Whether allowed plans reach the goal.
pub fn is_reached(tables: &Tables, state: &State, goal: &Goal) -> bool
    requires covers { CoversState tables.now.classes state.now.modes }
    requires goal { IsGoal tables.now.classes.compiled goal.now.pairs }
    ensures { IsTrue result →
        AreReached tables.now.classes.compiled.model state.now.modes goal.now.pairs }
{
    is_reached_by::<Brand>(tables, state, goal, Blank::new(1))
}

/// Whether the command has this name.
pub fn is_command(model: &Model, command: u16, name: &str) -> bool {
    let commands = model.commands();
    (command as usize) < commands.len() && commands.get(command as usize).bytes() == name.as_bytes()
}

/// Whether the commands have these names.
fn are_commands(model: &Model, commands: &[u16], names: &[&str]) -> bool {
    if commands.len() != names.len() {
        return false;
    }
    for i in 0..names.len() {
        if !is_command(model, commands[i], names[i]) {
            return false;
        }
    }
    true
}

/// Whether the plan has the commands of these names.
pub fn is_plan(tables: &Tables, plan: &PlanEnd, names: &[&str]) -> bool {
    match plan {
        PlanEnd::Plan(commands) => {
            let model = tables.classes().compiled().model();
            are_commands(model, commands.as_slice(), names)
        }
        PlanEnd::Long => false,
    }
}
