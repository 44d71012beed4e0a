//! Classes of modes with a way back, and the cells of tables, on small models.

ghost use Rattle.std.specs.Prelude.{◌≡◌, ◌<◌};

use crate::tabled::{classes_of, tables_of};
use cca_base::*;
use conformance_parts::{LATCHED_UNIT, STICKING_VALVE, has_mode, pair, state_of};
use policy_tables::{CellRef, Tables};
use reversibility::Classes;
use std::alloc::Global;
use std::marker::Brand;
use std::sync::ledger::{Blank, Ledger};
use std::test::*;

/// The set of these modes.
fn set_of(modes: &[u8]) -> ValueSet {
    let mut set = ValueSet::empty();
    for mode in modes {
        if (*mode as usize) < MAX_CHOICES {
            set = set.with(*mode);
        }
    }
    set
}

/// The set of the component's class, and whether the component is mendable.
fn class_of(classes: &Classes, component: u16) -> Option<(ValueSet, bool)> {
    if component as usize >= classes.compiled().model().components().len() {
        return None;
    }
    Some((classes.class(component), classes.mendable(component)))
}

/// Whether the component's class has exactly these modes, and whether it is mendable as said.
fn is_class(classes: &Classes, component: u16, modes: &[u8], mendable: bool) -> bool {
    match class_of(classes, component) {
        Some((set, answer)) => set == set_of(modes) && answer == mendable,
        None => false,
    }
}

/// Whether the component of the model has this class around the state of these modes.
fn has_class(
    alloc: Global,
    (text, base): (&str, &[u8]),
    component: u16,
    modes: &[u8],
    mendable: bool,
) -> bool {
    match classes_of(alloc, text, base) {
        Some(classes) => is_class(&classes, component, modes, mendable),
        None => false,
    }
}

/// Whether the classes cover the state of these modes.
fn is_covered(alloc: Global, classes: &Classes, modes: &[u8]) -> Option<bool> {
    let state = state_of(alloc, classes.compiled().model(), modes)?;
    Some(classes.covers(&state))
}

/// Whether the model's classes around one state cover the other.
fn covers(alloc: Global, (text, base): (&str, &[u8]), modes: &[u8]) -> Option<bool> {
    let classes = classes_of(alloc, text, base)?;
    is_covered(alloc, &classes, modes)
}

/// The cell for a component from one mode to another.
fn cell_at<L: Ledger>(tables: &Tables, place: (u16, u8, u8), blank: Blank) -> Option<CellRef<'_>>
    requires name { blank.name ≡ L.name }
    requires parts { blank.parts ≡ L.parts }
    requires some { 0 < blank.parts }
{
    let (c, from, to) = place;
    let classes = tables.classes();
    let model = classes.compiled().model();
    if c as usize >= model.components().len()
        || !has_mode(model, c, from)
        || !has_mode(model, c, to)
        || !classes.stands(c, from)
    {
        return None;
    }
    let mut steps = Steps::<L>::of(blank);
    Some(tables.look_up(c, from, to, &mut steps))
}

/// The same for a caller that counts no steps.
fn cell_of(tables: &Tables, place: (u16, u8, u8)) -> Option<CellRef<'_>> {
    cell_at::<Brand>(tables, place, Blank::new(1))
}

/// A step: the number of its move, its command, how many moves are left, and what has to stand first.
type Step<'a> = ((u16, u16, u8), &'a [Pair]);

fn is_step(cell: CellRef<'_>, wanted: Step<'_>) -> bool {
    match cell {
        CellRef::Step {
            move_number,
            command,
            cube,
            left,
        } => { (move_number, command, left) == wanted.0 && cube.as_slice() == wanted.1 }
        _ => false,
    }
}

/// Whether the cell is this step.
fn steps_at(tables: &Tables, place: (u16, u8, u8), wanted: Step<'_>) -> bool {
    match cell_of(tables, place) {
        Some(cell) => is_step(cell, wanted),
        None => false,
    }
}

/// Whether the cell of the model's tables around the state of these modes is this step.
fn steps(
    alloc: Global,
    (text, base): (&str, &[u8]),
    place: (u16, u8, u8),
    wanted: Step<'_>,
) -> bool {
    match tables_of(alloc, text, base) {
        Some(tables) => steps_at(&tables, place, wanted),
        None => false,
    }
}

/// The sticking valve where it is stuck.
const STUCK: (&str, &[u8]) = (STICKING_VALVE, &[0, 2]);

#[test]
fn a_stuck_valve_has_the_class_of_its_repair(rt: HostRuntime) {
    assert!(rt; has_class(rt.alloc(), STUCK, 0, &[0, 1], false));
    assert!(rt; has_class(rt.alloc(), STUCK, 1, &[0, 1], true));
    assert!(rt; covers(rt.alloc(), STUCK, &[1, 0]) == Some(true));
}

#[test]
fn a_stuck_valve_is_mended_first(rt: HostRuntime) {
    assert!(rt; steps(rt.alloc(), STUCK, (1, 2, 1), ((4, 4, 2), &[pair(0, 1)])));
}

/// The unit that can't be reset, where it is hung.
const LATCHED: (&str, &[u8]) = (LATCHED_UNIT, &[2, 0]);

#[test]
fn an_open_chain_may_end_half_way(rt: HostRuntime) {
    assert!(rt; has_class(rt.alloc(), LATCHED, 0, &[], false));
    assert!(rt; covers(rt.alloc(), LATCHED, &[2, 0]) == Some(true));
    assert!(rt; covers(rt.alloc(), LATCHED, &[1, 0]) == Some(true));
    assert!(rt; covers(rt.alloc(), LATCHED, &[0, 0]) == Some(false));
    assert!(rt; covers(rt.alloc(), (LATCHED_UNIT, &[1, 0]), &[2, 0]) == Some(false));
}
