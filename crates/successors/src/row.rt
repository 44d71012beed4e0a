//! The choices of one component: its nominal mode, and each mode to which a failure leads, at the failure's least cost.

ghost use Rattle.std.specs.Prelude.{◌≡◌, ◌≢◌, All, map, Some, ◌+◌, ◌<◌, ◌≤◌, ◌↔◌, ℕ, Contains, None, IfOk, List, ◌++◌, ◌∷◌, [], length, slice_index, slice_index_or, vec_len, vec_capacity};
ghost use Rattle.cca_base.specs.Prelude.{mode_counts, ChangeCosts, HasMode, IsLeast, IsRow, IsState};
ghost use Rattle.cca_base.specs.declared.model.Failure.{Failure};
ghost use Rattle.successors.specs.Choices.{AreLeast, AreAllLeast, AreChanges, IsAdded};

use cca_base::{Choice, Component, Failure, List, Model, lesser};
use std::alloc::{AllocError, Global};

/// Takes in a failure of the component, where it leaves this mode.
fn note_cost(costs: &mut List<Option<u32>>, failure: &Failure, from: u8)
    requires { failure.now.target < length costs.old }
    ensures full { length costs.new ≡ length costs.old }
    ensures least { (fs : List Failure) → AreLeast fs failure.now.component from costs.old →
        AreLeast (fs ++ failure.now ∷ []) failure.now.component from costs.new }
{
    if failure.source != from {
        return;
    }
    let target = failure.target as usize;
    let least = lesser(*costs.get(target), failure.cost);
    costs.set(target, Some(least));
}

/// Takes in a failure at its component's costs.
fn note_failure(table: &mut Vec<List<Option<u32>>>, failure: &Failure, modes: &[u8])
    requires full { length table.old.items ≡ length modes.now }
    requires component { failure.now.component < length modes.now }
    requires target { failure.now.target < length
        (slice_index_or table.old.items failure.now.component []) }
    ensures sizes { map length table.new.items ≡ map length table.old.items }
    ensures least { (fs : List Failure) → AreAllLeast fs modes.now table.old.items →
        AreAllLeast (fs ++ failure.now ∷ []) modes.now table.new.items }
{
    let component = failure.component as usize;
    note_cost(&mut table[component], failure, modes[component]);
}

/// No cost for each mode of each component. The error is out of memory.
pub(crate) fn no_costs(
    alloc: Global,
    components: &[Component],
) -> Result<Vec<List<Option<u32>>>, AllocError>
    ensures sizes { IfOk result (λ v.
        map length v.items ≡ map (λ x. length x.modes) components.now) }
    ensures none { IfOk result (λ v. All (All (λ o. o ≡ None)) v.items) }
{
    let mut table = Vec::with_capacity(alloc, components.len())?;
    for component in components {
        let costs = vec![in alloc; None; component.modes.len()]?;
        table.push(List::of(costs))?;
    }
    Ok(table)
}

/// Lets the costs of a component go.
fn forget(costs: &mut List<Option<u32>>)
    ensures full { length costs.new ≡ length costs.old }
    ensures none { All (λ o. o ≡ None) costs.new }
{
    for mode in 0..costs.len() {
        costs.set(mode, None);
    }
}

/// Lets all costs go.
fn forget_all(table: &mut Vec<List<Option<u32>>>)
    ensures sizes { map length table.new.items ≡ map length table.old.items }
    ensures none { All (All (λ o. o ≡ None)) table.new.items }
{
    for component in 0..table.len() {
        forget(&mut table[component]);
    }
}

/// Writes the least cost of the failures from each component's mode, for each of its modes. All failures are gone through once.
pub(crate) fn note_costs(model: &Model, modes: &[u8], table: &mut Vec<List<Option<u32>>>)
    requires state { IsState model.now modes.now }
    requires sizes { map length table.old.items ≡ mode_counts model.now }
    ensures sizes { map length table.new.items ≡ mode_counts model.now }
    ensures least { AreAllLeast model.now.failures modes.now table.new.items }
{
    forget_all(table);
    for failure in model.failures().as_slice() {
        note_failure(table, failure, modes);
    }
}

/// The least cost of the failures from each component's mode, for each of its modes. The error is out of memory.
pub fn least_costs(
    alloc: Global,
    model: &Model,
    modes: &[u8],
) -> Result<Vec<List<Option<u32>>>, AllocError>
    requires { IsState model.now modes.now }
    ensures sizes { IfOk result (λ v. map length v.items ≡ mode_counts model.now) }
    ensures least { IfOk result (λ v. AreAllLeast model.now.failures modes.now v.items) }
{
    let mut table = no_costs(alloc, model.components().as_slice())?;
    note_costs(model, modes, &mut table);
    Ok(table)
}

/// What the change to a mode costs, if there is one, where failures to it cost this at least.
pub fn change(to: u8, nominal: u8, failure: Option<u32>) -> Option<u64>
    ensures same { to ≡ nominal → result ≡ Some 0 }
    ensures other { to ≢ nominal → result ≡ failure }
{
    if to == nominal {
        return Some(0);
    }
    match failure {
        None => None,
        Some(cost) => Some(cost as u64),
    }
}

/// Adds the mode, where the change to it has a cost.
fn add_choice(row: &mut Vec<Choice>, mode: u8, cost: Option<u64>)
    requires { vec_len row.old < vec_capacity row.old }
    ensures added { IsAdded row.old.items mode cost row.new.items }
    ensures len { length row.new.items ≤ length row.old.items + 1 }
    ensures room { vec_capacity row.new ≡ vec_capacity row.old }
{
    if let Some(cost) = cost {
        row.push_reserved(Choice { mode, cost });
    }
}

/// Writes the modes to which the component can change, by cost and then by mode, where failures to them cost this at least.
pub(crate) fn fill_row(
    model: &Model,
    component: u16,
    from: u8,
    nominal: u8,
    costs: &List<Option<u32>>,
    row: &mut Vec<Choice>,
)
    requires component { component < length model.now.components }
    requires full { length costs.now ≡ slice_index (mode_counts model.now) component }
    requires least { AreLeast model.now.failures component from costs.now }
    requires room { slice_index (mode_counts model.now) component ≤ vec_capacity row.old }
    ensures row { IsRow row.new.items }
    ensures each { AreChanges model.now component from nominal
        (slice_index (mode_counts model.now) component) row.new.items }
    ensures room { vec_capacity row.new ≡ vec_capacity row.old }
{
    let modes = model.components().get(component as usize).modes.len();
    row.clear();
    for to in 0..modes as u8 {
        add_choice(row, to, change(to, nominal, *costs.get(to as usize)));
    }
    row.sort_unstable();
}
