//! Wishes, and the target and the goal that each leads to.

ghost use Rattle.std.specs.Prelude.{◌≡◌, ◌≤◌, All, IfSome, length};
ghost use Rattle.cca_base.specs.Prelude.{IsFormula};
ghost use Rattle.goal_interpreter.specs.Weights.{AreWeights};
ghost use Rattle.cca_base.specs.declared.limits.TheConstants.{MAX_WEIGHT};

use crate::tabled::{covered, tables_of};
use cca_base::*;
use conformance_parts::{LATCHED_UNIT, STICKING_VALVE, pair};
use goal_interpreter::{Target, Weights, interpret};
use model_syntax::read_formula;
use policy_tables::Tables;
use std::alloc::Global;
use std::test::*;
use text_base::tokens;

/// For each component the weights of its modes.
type Table<'a> = &'a [&'a [u32]];

/// The row, if it has so many weights and none is too great.
fn row_of(alloc: Global, numbers: &[u32], n: usize) -> Option<List<u32>>
    ensures full { IfSome result (λ row. length row ≡ n) }
    ensures small { IfSome result (All (λ weight. weight ≤ MAX_WEIGHT)) }
{
    if numbers.len() != n {
        return None;
    }
    let mut row = List::new(alloc);
    for weight in numbers {
        if *weight > MAX_WEIGHT {
            return None;
        }
        row.push(*weight).ok()?;
    }
    Some(row)
}

/// The weights of this table, if it fits the model.
fn weights_of(alloc: Global, model: &Model, table: Table<'_>) -> Option<Weights>
    ensures { IfSome result (λ w. AreWeights model.now w.rows) }
{
    let components = model.components();
    if table.len() != components.len() {
        return None;
    }
    let mut rows = List::new(alloc);
    for c in 0..table.len() {
        let row = row_of(alloc, table[c], components.get(c).modes.len())?;
        rows.push(row).ok()?;
    }
    Some(Weights { rows })
}

/// The formula of this text.
fn formula_of(alloc: Global, model: &Model, text: &str) -> Option<Formula>
    ensures { IfSome result (IsFormula model.now) }
{
    let tokens = tokens(alloc, text.as_bytes()).ok()?;
    read_formula(alloc, model, tokens.as_slice()).ok()
}

/// The target of the wish from the state of these modes.
fn target_of(
    alloc: Global,
    tables: &Tables,
    modes: &[u8],
    wish: &str,
    weights: Table<'_>,
) -> Option<Target> {
    let state = covered(alloc, tables, modes)?;
    let model = tables.classes().compiled().model();
    let formula = formula_of(alloc, model, wish)?;
    let weights = weights_of(alloc, model, weights)?;
    interpret(alloc, tables, &state, &formula, &weights).ok()
}

/// A model's text, and the modes of a state.
type Place<'a> = (&'a str, &'a [u8]);

/// The target of the wish from the model's state.
fn wished(alloc: Global, place: Place<'_>, wish: &str, weights: Table<'_>) -> Option<Target> {
    let tables = tables_of(alloc, place.0, place.1)?;
    target_of(alloc, &tables, place.1, wish, weights)
}

/// The modes of a target, its weight and its goal.
type Wanted<'a> = (&'a [u8], u64, &'a [Pair]);

fn is_target(target: &Target, wanted: Wanted<'_>) -> bool {
    match target {
        Target::Found {
            state,
            weight,
            goal,
        } => {
            state.modes.as_slice() == wanted.0
                && *weight == wanted.1
                && goal.pairs.as_slice() == wanted.2
        }
        _ => false,
    }
}

/// Whether this target is found.
fn finds(
    alloc: Global,
    place: Place<'_>,
    wish: &str,
    weights: Table<'_>,
    wanted: Wanted<'_>,
) -> bool {
    match wished(alloc, place, wish, weights) {
        Some(target) => is_target(&target, wanted),
        None => false,
    }
}

/// Whether no settled state holds the wish.
fn is_nowhere(alloc: Global, place: Place<'_>, wish: &str, weights: Table<'_>) -> bool {
    match wished(alloc, place, wish, weights) {
        Some(Target::Nowhere) => true,
        _ => false,
    }
}

/// Whether the wish has too many implicants.
fn has_many(alloc: Global, place: Place<'_>, wish: &str, weights: Table<'_>) -> bool {
    match wished(alloc, place, wish, weights) {
        Some(Target::Many) => true,
        _ => false,
    }
}

/// The sticking valve at its start.
const CLOSED: (&str, &[u8]) = (STICKING_VALVE, &[0, 0]);

/// The sticking valve where it is stuck.
const STUCK: (&str, &[u8]) = (STICKING_VALVE, &[0, 2]);

#[test]
fn the_first_of_the_lightest_states_is_the_target(rt: HostRuntime) {
    let none: [&[u32]; 2] = [&[0, 0], &[0, 0, 0]];
    let first = [pair(1, 1), pair(0, 0)];
    assert!(rt;
        finds(
            rt.alloc(),
            CLOSED,
            "flow = some",
            &none,
            (&[0, 1], 0, &first)
        )
    );
    let either = "drv = on or valve = open";
    assert!(rt; finds(rt.alloc(), CLOSED, either, &none, (&[0, 1], 0, &first)));
    let some: [&[u32]; 2] = [&[3, 0], &[0, 1, 0]];
    let light = [pair(1, 1), pair(0, 1)];
    assert!(rt;
        finds(
            rt.alloc(),
            CLOSED,
            "flow = some",
            &some,
            (&[1, 1], 1, &light)
        )
    );
}

#[test]
fn a_stuck_valve_is_mended_in_the_target(rt: HostRuntime) {
    let weights: [&[u32]; 2] = [&[3, 0], &[0, 0, 0]];
    let goal = [pair(1, 0), pair(0, 1)];
    assert!(rt;
        finds(
            rt.alloc(),
            STUCK,
            "flow = none",
            &weights,
            (&[1, 0], 0, &goal)
        )
    );
    assert!(rt; is_nowhere(rt.alloc(), CLOSED, "valve = stuck", &weights));
    assert!(rt; is_nowhere(rt.alloc(), STUCK, "valve = stuck", &weights));
}

/// The unit that can't be reset, where it is hung.
const LATCHED: (&str, &[u8]) = (LATCHED_UNIT, &[2, 0]);

#[test]
fn a_unit_that_stays_hung_is_in_the_target_alone(rt: HostRuntime) {
    let weights: [&[u32]; 2] = [&[0, 0, 7], &[2, 0]];
    let goal = [pair(1, 0)];
    assert!(rt;
        finds(
            rt.alloc(),
            LATCHED,
            "dev != ok",
            &weights,
            (&[2, 0], 9, &goal)
        )
    );
    assert!(rt; is_nowhere(rt.alloc(), LATCHED, "dev = latched", &weights));
}

/// A model with seven components of five modes.
const SEVEN: &str = "titan 1
component a = m0, m1, m2, m3, m4 start m0
component b = m0, m1, m2, m3, m4 start m0
component c = m0, m1, m2, m3, m4 start m0
component d = m0, m1, m2, m3, m4 start m0
component e = m0, m1, m2, m3, m4 start m0
component f = m0, m1, m2, m3, m4 start m0
component g = m0, m1, m2, m3, m4 start m0";

/// A wish with one implicant for each choice of one of four modes for six components: 4,096.
const SIX_OF_SEVEN: &str = "a != m4 and b != m4 and c != m4 and d != m4 and e != m4 and f != m4";

/// The same wish with one more implicant.
const ONE_MORE: &str =
    "a != m4 and b != m4 and c != m4 and d != m4 and e != m4 and f != m4 or g = m4";

#[test]
fn there_are_few_implicants_or_too_many(rt: HostRuntime) {
    let row: &[u32] = &[0, 0, 0, 0, 0];
    let weights = [row, row, row, row, row, row, row];
    let modes = [0, 0, 0, 0, 0, 0, 0];
    let goal = [
        pair(0, 0),
        pair(1, 0),
        pair(2, 0),
        pair(3, 0),
        pair(4, 0),
        pair(5, 0),
        pair(6, 0),
    ];
    let place: Place<'_> = (SEVEN, &modes);
    assert!(rt;
        finds(
            rt.alloc(),
            place,
            SIX_OF_SEVEN,
            &weights,
            (&modes, 0, &goal)
        )
    );
    assert!(rt; has_many(rt.alloc(), place, ONE_MORE, &weights));
}
