//! Questions of worlds, one after another in one memory that is kept.

ghost use Rattle.std.specs.Prelude.{◌≡◌};
ghost use Rattle.consistency.specs.Spaces.{IsWorldSpace};
ghost use Rattle.consistency.specs.Worlds.{AreWorldsOf};

use crate::formulas::is;
use crate::worlds::first_state;
use cca_base::{Model, Pair, Subject};
use conformance_parts::{Pairs, VALVE, model_of, modes_of, pair, seen};
use consistency::{Denied, WorldSpace, Worlds};
use std::alloc::Global;
use std::test::*;

/// Modes, what is seen, and the pairs of the first such state that clash, none where it is shown.
type Blame<'a> = (Pairs<'a>, Pairs<'a>, &'a [Pair]);

/// Modes, a subject and a value, and whether the subject has it in all worlds of all states of the modes.
type Sure<'a> = (Pairs<'a>, Subject, u8, bool);

/// Whether the pairs that clash are those of the row.
fn blames(
    alloc: Global,
    model: &Model,
    worlds: &Worlds,
    row: &Blame<'_>,
    space: &mut WorldSpace,
) -> Option<bool>
    requires of { AreWorldsOf model.now worlds.now }
    requires space { IsWorldSpace worlds.now space.old }
    ensures { IsWorldSpace worlds.now space.new }
{
    let observed = seen(alloc, model, row.1)?;
    let state = first_state(alloc, model, row.0)?;
    let clash = worlds.clash(alloc, model, &state, &observed, space).ok()?;
    match clash {
        Some(cube) => Some(cube.as_slice() == row.2),
        None => Some(row.2.is_empty()),
    }
}

/// Whether it follows as the row says.
fn is_sure(
    alloc: Global,
    model: &Model,
    worlds: &Worlds,
    row: &Sure<'_>,
    space: &mut WorldSpace,
) -> Option<bool>
    requires of { AreWorldsOf model.now worlds.now }
    requires space { IsWorldSpace worlds.now space.old }
    ensures { IsWorldSpace worlds.now space.new }
{
    let modes = modes_of(alloc, model, row.0)?;
    let formula = is(model, row.1, row.2)?;
    let denied = Denied::of(alloc, model, &formula).ok()?;
    Some(worlds.follows_by(model, &modes, &denied, space) == row.3)
}

/// Whether the rows are right, each pair of them asked for in turn.
fn are_right(alloc: Global, model: &Model, rows: &[(Blame<'_>, Sure<'_>)]) -> Option<bool> {
    let worlds = Worlds::of(alloc, model).ok()?;
    let mut space = worlds.space(alloc).ok()?;
    for row in rows {
        if !blames(alloc, model, &worlds, &row.0, &mut space)?
            || !is_sure(alloc, model, &worlds, &row.1, &mut space)?
        {
            return Some(false);
        }
    }
    Some(true)
}

fn are_of_the_valve(alloc: Global, rows: &[(Blame<'_>, Sure<'_>)]) -> Option<bool> {
    let model = model_of(alloc, VALVE)?;
    are_right(alloc, &model, rows)
}

#[test]
fn questions_in_one_memory(rt: HostRuntime) {
    let open = pair(1, 1);
    let closed = pair(1, 0);
    let flow = Subject::Variable(0);
    let rows: [(Blame<'_>, Sure<'_>); 4] = [
        (
            (&[(0, 1), (1, 1)], &[(0, 0)], &[open]),
            (&[(1, 1)], flow, 1, true),
        ),
        (
            (&[(0, 1), (1, 1)], &[(0, 1)], &[]),
            (&[(1, 0)], flow, 1, false),
        ),
        (
            (&[(0, 1), (1, 0)], &[(0, 1)], &[closed]),
            (&[(1, 0)], flow, 0, true),
        ),
        (
            (&[(0, 0), (1, 1)], &[(0, 0)], &[open]),
            (&[(0, 1)], Subject::Component(1), 1, false),
        ),
    ];
    assert!(rt; are_of_the_valve(rt.alloc(), &rows) == Some(true));
}
