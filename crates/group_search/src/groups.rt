//! Groups of components: those with one name.

ghost use Rattle.std.specs.Prelude.{◌≡◌, ◌<◌, ◌≤◌, ◌*◌, ◌^◌, ◌==◌, ℕ, true, cond, All, map, length, slice_index};
ghost use Rattle.cca_base.specs.declared.limits.TheConstants.{MAX_ROWS};
ghost use Rattle.group_search.specs.Columns.{ArePaths};
ghost use Rattle.group_search.specs.Floors.{AreJoined};
ghost use Rattle.group_search.specs.Questions.{Question, cost_in, in_group};
ghost use Rattle.group_search.specs.Takings.{IsTaken};
ghost use Rattle.group_search.specs.declared.columns.TheConstants.{MAX_PATH};

use crate::columns::Chosen;
use cca_base::{List, Pair};

/// Whether the component is in the group; without one each is.
pub fn is_in_group(names: &[u16], group: Option<u16>, component: u16) -> bool
    requires { component < length names.now }
    ensures { result ≡ in_group names.now group component }
{
    match group {
        None => true,
        Some(name) => names[component as usize] == name,
    }
}

/// What the components of the group cost.
pub fn group_cost(names: &[u16], group: Option<u16>, costs: &[u64]) -> u64
    requires few { length names.now ≤ MAX_ROWS }
    requires costs { length costs.now ≡ length names.now }
    requires cheap { (c : ℕ) → c < length names.now → in_group names.now group c ≡ true → slice_index costs.now c ≤ MAX_PATH }
    ensures cost { result ≡ cost_in (length names.now) (in_group names.now group) costs.now }
    ensures cheap { result ≤ MAX_ROWS * MAX_PATH }
{
    let mut cost = 0;
    for c in 0..names.len() {
        if is_in_group(names, group, c as u16) {
            cost += costs[c];
        }
    }
    cost
}

/// Gives the components of one group the name of another.
fn rename(names: &mut List<u16>, from: u16, to: u16)
    ensures { names.new ≡ map (λ n. cond (n == from) to n) names.old }
{
    for at in 0..names.len() {
        if *names.get(at) == from {
            names.set(at, to);
        }
    }
}

/// Joins the groups of the pairs' components, and gives their name.
pub(crate) fn join(names: &mut List<u16>, components: &[u16], pairs: &[Pair]) -> u16
    requires some { 0 < length pairs.now }
    requires places { All (λ p. p.item < length components.now) pairs.now }
    requires components { All (λ c. c < length names.old) components.now }
    ensures joined { AreJoined names.old names.new }
    ensures long { length names.new ≡ length names.old }
{
    let to = *names.get(components[pairs[0].item as usize] as usize);
    for pair in pairs {
        let from = *names.get(components[pair.item as usize] as usize);
        rename(names, from, to);
    }
    to
}

/// Makes one group of all components.
pub(crate) fn join_all(names: &mut List<u16>)
    ensures joined { AreJoined names.old names.new }
    ensures one { All (λ name. name ≡ 0) names.new }
    ensures long { length names.new ≡ length names.old }
{
    for at in 0..names.len() {
        names.set(at, 0);
    }
}

/// Takes over the values of the group's places that were found.
fn take_values(
    names: &[u16],
    group: Option<u16>,
    components: &[u16],
    values: &mut List<u8>,
    found: &[u8],
)
    requires found { length found.now ≡ length components.now }
    requires values { length values.old ≡ length components.now }
    requires components { All (λ c. c < length names.now) components.now }
    ensures long { length values.new ≡ length values.old }
    ensures taken { (place : ℕ) → place < length components.now → slice_index values.new place
        ≡ cond (in_group names.now group (slice_index components.now place)) (slice_index found.now place) (slice_index values.old place) }
{
    for place in 0..components.len() {
        if is_in_group(names, group, components[place]) {
            values.set(place, found[place]);
        }
    }
}

/// Takes over what the group's components cost as they were found.
fn take_costs(names: &[u16], group: Option<u16>, costs: &mut List<u64>, found: &[u64])
    requires few { length names.now ≤ MAX_ROWS }
    requires found { length found.now ≡ length names.now }
    requires costs { length costs.old ≡ length names.now }
    ensures long { length costs.new ≡ length costs.old }
    ensures taken { (c : ℕ) → c < length names.now → slice_index costs.new c
        ≡ cond (in_group names.now group c) (slice_index found.now c) (slice_index costs.old c) }
{
    for c in 0..names.len() {
        if is_in_group(names, group, c as u16) {
            costs.set(c, found[c]);
        }
    }
}

/// Takes over the group's paths that were found.
pub(crate) fn take_paths(
    names: &[u16],
    group: Option<u16>,
    components: &[u16],
    chosen: &mut Chosen,
    found: &Chosen,
)
    requires few { length names.now ≤ MAX_ROWS }
    requires components { All (λ c. c < length names.now) components.now }
    requires found_values { length found.now.values ≡ length components.now }
    requires found_costs { length found.now.costs ≡ length names.now }
    requires values { length chosen.old.values ≡ length components.now }
    requires costs { length chosen.old.costs ≡ length names.now }
    ensures { IsTaken components.now names.now group found.now chosen.old chosen.new }
{
    take_values(
        names,
        group,
        components,
        &mut chosen.values,
        found.values.as_slice(),
    );
    take_costs(names, group, &mut chosen.costs, found.costs.as_slice());
}
