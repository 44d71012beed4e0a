//! Modes of components and values of variables, from plain tables.

ghost use Rattle.std.specs.Prelude.{◌≡◌, ◌<◌, All, IfSome, IsTrue, length};
ghost use Rattle.cca_base.specs.Prelude.{HasMode, HasValue, IsCube, IsState, Lacks};

use cca_base::{Cube, List, Model, Pair, Seen, State};
use std::alloc::Global;

/// Modes of components or values of variables, by their numbers.
pub type Pairs<'a> = &'a [(u16, u8)];

/// A component with its mode, or a variable with its value.
pub fn pair(item: u16, value: u8) -> Pair
    ensures { result ≡ record { item = item; value = value } }
{
    Pair { item, value }
}

/// The list of these numbers.
pub fn list_of(alloc: Global, numbers: &[u8]) -> Option<List<u8>> {
    let mut list = List::new(alloc);
    for number in numbers {
        list.push(*number).ok()?;
    }
    Some(list)
}

/// Whether the component has the mode.
pub fn has_mode(model: &Model, component: u16, mode: u8) -> bool
    ensures { IsTrue result → HasMode model.now component mode }
{
    let components = model.components();
    (component as usize) < components.len()
        && (mode as usize) < components.get(component as usize).modes.len()
}

fn has_value(model: &Model, v: u16, value: u8) -> bool
    ensures { IsTrue result → HasValue model.now v value }
{
    let variables = model.variables();
    (v as usize) < variables.len() && (value as usize) < variables.get(v as usize).values.len()
}

/// Whether no pair is of the component.
pub fn lacks(pairs: &[Pair], component: u16) -> bool
    ensures { IsTrue result → Lacks component pairs.now }
{
    pairs.iter().all(|p| p.item != component)
}

/// These modes of the model's components.
pub fn modes_of(alloc: Global, model: &Model, pairs: Pairs<'_>) -> Option<Cube>
    ensures { IfSome result (All (λ p. HasMode model.now p.item p.value)) }
{
    let mut cube = Cube::new(alloc);
    for p in pairs {
        if !has_mode(model, p.0, p.1) || !lacks(cube.as_slice(), p.0) {
            return None;
        }
        cube.push(pair(p.0, p.1)).ok()?;
    }
    Some(cube)
}

/// These values of the model's variables.
pub fn seen(alloc: Global, model: &Model, pairs: Pairs<'_>) -> Option<Seen>
    ensures { IfSome result (λ s. All (λ p. HasValue model.now p.item p.value) s.pairs) }
{
    let mut list = List::new(alloc);
    for p in pairs {
        if !has_value(model, p.0, p.1) {
            return None;
        }
        list.push(pair(p.0, p.1)).ok()?;
    }
    Some(Seen { pairs: list })
}

fn is_state(model: &Model, modes: &[u8]) -> bool
    ensures { IsTrue result → IsState model.now modes.now }
{
    let n = model.components().len();
    if modes.len() != n {
        return false;
    }
    for c in 0..n {
        if !has_mode(model, c as u16, modes[c]) {
            return false;
        }
    }
    true
}

/// The state of these modes.
pub fn state_of(alloc: Global, model: &Model, modes: &[u8]) -> Option<State>
    ensures { IfSome result (λ s. IsState model.now s.modes) }
{
    let list = list_of(alloc, modes)?;
    if !is_state(model, list.as_slice()) {
        return None;
    }
    Some(State { modes: list })
}

/// Modes of different components of the model, in this order.
pub fn pairs_of(alloc: Global, model: &Model, pairs: Pairs<'_>) -> Option<List<Pair>>
    ensures once { IfSome result IsCube }
    ensures within { IfSome result (All (λ p. p.item < length model.now.components)) }
{
    let count = model.components().len();
    let mut list = List::new(alloc);
    for p in pairs {
        if p.0 as usize >= count || !lacks(list.as_slice(), p.0) {
            return None;
        }
        list.push(pair(p.0, p.1)).ok()?;
    }
    Some(list)
}
