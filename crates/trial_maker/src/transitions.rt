//! The lines of moves, repairs and failures, with what each draws.

ghost use Rattle.std.specs.Prelude.{◌≡◌, ◌++◌, OnOk};
ghost use Rattle.std.specs.String.{string_bytes};
ghost use Rattle.trial_maker.specs.Documents.{AreDrawn, ended};
ghost use Rattle.trial_maker.specs.Draws.{each};
ghost use Rattle.trial_maker.specs.TransitionLines.{guard_of, transition_line, move_lines, failure_cost, failure_line, failure_lines};

use crate::chains::{Link, MODES, mode_name};
use crate::draws::Draws;
use std::alloc::AllocError;

/// The least cost of a failure.
const LEAST_COST: u64 = 3;

/// How many costs a failure may have.
const COSTS: u64 = 4;

/// The guard of a component's move. At the first place of a chain nothing is drawn.
#[tactic(auto, using(crate::proofs::Guards::first_guard, crate::proofs::Guards::later_guard))]
fn push_guard(out: &mut String, draws: &mut Draws, link: Link) -> Result<(), AllocError>
    ensures text { OnOk result (string_bytes out.new
        ≡ string_bytes out.old ++ (guard_of link draws.old.number).0) }
    ensures number { OnOk result (draws.new.number ≡ (guard_of link draws.old.number).1) }
{
    if link.place == 0 {
        return out.push_str("true");
    }
    let mode = mode_name(draws.draw(MODES));
    let before = Link {
        chain: link.chain,
        place: link.place - 1,
    };
    write!(out, "c{before}={mode}")
}

#[tactic(auto, unfolding(crate::specs::TransitionLines::transition_line))]
fn push_transition(
    out: &mut String,
    draws: &mut Draws,
    link: Link,
    word: &str,
    modes: &str,
    number: u64,
) -> Result<(), AllocError>
    ensures text { OnOk result (string_bytes out.new
        ≡ string_bytes out.old ++ ended (transition_line link word.now modes.now number
        (guard_of link draws.old.number).0)) }
    ensures number { OnOk result (draws.new.number ≡ (guard_of link draws.old.number).1) }
{
    write!(out, "{word} c{link} {modes} by k{link}_{number} when ")?;
    push_guard(out, draws, link)?;
    out.push_str("\n")?;
    Ok(())
}

/// The three moves of a component and its repair.
#[tactic(auto, using(crate::proofs::LinesSoFar::four_lines), unfolding(crate::specs::TransitionLines::move_lines))]
fn push_moves_of(out: &mut String, draws: &mut Draws, link: Link) -> Result<(), AllocError>
    ensures { OnOk result (AreDrawn (string_bytes out.old) (string_bytes out.new)
        draws.old.number draws.new.number (move_lines link)) }
{
    push_transition(out, draws, link, "move", "a->b", 0)?;
    push_transition(out, draws, link, "move", "b->c", 1)?;
    push_transition(out, draws, link, "move", "c->a", 2)?;
    push_transition(out, draws, link, "repair", "x->a", 3)
}

pub fn push_moves(out: &mut String, draws: &mut Draws, links: &[Link]) -> Result<(), AllocError>
    ensures { OnOk result (AreDrawn (string_bytes out.old) (string_bytes out.new)
        draws.old.number draws.new.number (each move_lines links.now)) }
{
    for link in links {
        push_moves_of(out, draws, *link)?;
    }
    Ok(())
}

#[tactic(auto, unfolding(crate::specs::TransitionLines::failure_cost, crate::specs::TransitionLines::failure_line))]
fn push_failure(
    out: &mut String,
    draws: &mut Draws,
    link: Link,
    mode: &str,
) -> Result<(), AllocError>
    ensures text { OnOk result (string_bytes out.new
        ≡ string_bytes out.old ++ ended (failure_line link mode.now
        (failure_cost draws.old.number).0)) }
    ensures number { OnOk result (draws.new.number ≡ (failure_cost draws.old.number).1) }
{
    let cost = LEAST_COST + draws.draw(COSTS);
    writeln!(out, "fail c{link} {mode}->x cost {cost}")
}

/// The four failures of a component.
#[tactic(auto, using(crate::proofs::LinesSoFar::four_lines), unfolding(crate::specs::TransitionLines::failure_lines))]
fn push_failures_of(out: &mut String, draws: &mut Draws, link: Link) -> Result<(), AllocError>
    ensures { OnOk result (AreDrawn (string_bytes out.old) (string_bytes out.new)
        draws.old.number draws.new.number (failure_lines link)) }
{
    push_failure(out, draws, link, "a")?;
    push_failure(out, draws, link, "b")?;
    push_failure(out, draws, link, "c")?;
    push_failure(out, draws, link, "x")
}

pub fn push_failures(out: &mut String, draws: &mut Draws, links: &[Link]) -> Result<(), AllocError>
    ensures { OnOk result (AreDrawn (string_bytes out.old) (string_bytes out.new)
        draws.old.number draws.new.number (each failure_lines links.now)) }
{
    for link in links {
        push_failures_of(out, draws, *link)?;
    }
    Ok(())
}
