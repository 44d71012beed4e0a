//! The lines of the script, with what each tick draws.

ghost use Rattle.std.specs.Prelude.{◌≡◌, ◌++◌, ◌<◌, OnOk};
ghost use Rattle.std.specs.String.{string_bytes};
ghost use Rattle.trial_maker.specs.Documents.{AreDrawn, ended, text_of, ticks};
ghost use Rattle.trial_maker.specs.Draws.{each};
ghost use Rattle.trial_maker.specs.ScriptLines.{mirror_line, mirror_lines, drawn_goal, goal_lines, fault_lines, tick_lines};

use crate::chains::{CHAINS, LINKS, Link, MODES, PLACES, link_at, mode_name};
use crate::draws::Draws;
use std::alloc::AllocError;

/// How many ticks there are.
const TICKS: u64 = 200;

/// A goal comes at the first of so many ticks.
const GOAL_TICKS: u64 = 40;

/// A fault comes where a draw of so many gives 0.
const FAULT_CHANCES: u64 = 10;

#[tactic(auto, unfolding(crate::specs::ScriptLines::mirror_line))]
fn push_mirror(out: &mut String, link: Link) -> Result<(), AllocError>
    ensures { OnOk result (string_bytes out.new
        ≡ string_bytes out.old ++ ended (mirror_line link)) }
{
    writeln!(out, "mirror s{link}")
}

/// The script's first line, and then all mirrors.
#[tactic(auto, using(crate::proofs::LinesSoFar::line_more), unfolding(crate::specs::ScriptLines::mirror_lines))]
pub fn push_mirrors(out: &mut String, links: &[Link]) -> Result<(), AllocError>
    ensures { OnOk result (string_bytes out.new
        ≡ string_bytes out.old ++ text_of (mirror_lines links.now)) }
{
    out.push_str("script\n")?;
    for link in links {
        push_mirror(out, *link)?;
    }
    Ok(())
}

/// A goal for a component of a chain and one of the next chain.
#[tactic(auto, unfolding(crate::specs::ScriptLines::goal_line, crate::specs::ScriptLines::drawn_goal))]
fn push_goal(out: &mut String, draws: &mut Draws) -> Result<(), AllocError>
    ensures { OnOk result (AreDrawn (string_bytes out.old) (string_bytes out.new)
        draws.old.number draws.new.number drawn_goal) }
{
    let chain = draws.draw(CHAINS);
    let place = draws.draw(PLACES);
    let mode = mode_name(draws.draw(MODES));
    let next_place = draws.draw(PLACES);
    let next_mode = mode_name(draws.draw(MODES));
    let first = Link { chain, place };
    let second = Link {
        chain: (chain + 1) % CHAINS,
        place: next_place,
    };
    writeln!(out, "goal c{first}={mode},c{second}={next_mode}")
}

/// The goal of a tick, where one comes.
#[tactic(auto, unfolding(crate::specs::ScriptLines::goal_lines))]
fn push_goal_at(out: &mut String, draws: &mut Draws, tick: u64) -> Result<(), AllocError>
    requires { 0 < tick }
    ensures { OnOk result (AreDrawn (string_bytes out.old) (string_bytes out.new)
        draws.old.number draws.new.number (goal_lines tick)) }
{
    if (tick - 1) % GOAL_TICKS == 0 {
        push_goal(out, draws)?;
    }
    Ok(())
}

/// A fault, by chance.
#[tactic(auto, unfolding(crate::specs::ScriptLines::fault_line, crate::specs::ScriptLines::drawn_fault, crate::specs::ScriptLines::fault_lines))]
fn push_fault(out: &mut String, draws: &mut Draws) -> Result<(), AllocError>
    ensures { OnOk result (AreDrawn (string_bytes out.old) (string_bytes out.new)
        draws.old.number draws.new.number fault_lines) }
{
    if draws.draw(FAULT_CHANCES) == 0 {
        let link = link_at(draws.draw(LINKS));
        writeln!(out, "fault c{link}=x")?;
    }
    Ok(())
}

/// The goal and the fault of a tick, where they come, and then the tick.
#[tactic(auto, unfolding(crate::specs::ScriptLines::tick_lines))]
fn push_tick(out: &mut String, draws: &mut Draws, tick: u64) -> Result<(), AllocError>
    requires { 0 < tick }
    ensures { OnOk result (AreDrawn (string_bytes out.old) (string_bytes out.new)
        draws.old.number draws.new.number (tick_lines tick)) }
{
    push_goal_at(out, draws, tick)?;
    push_fault(out, draws)?;
    out.push_str("tick\n")
}

pub fn push_ticks(out: &mut String, draws: &mut Draws) -> Result<(), AllocError>
    ensures { OnOk result (AreDrawn (string_bytes out.old) (string_bytes out.new)
        draws.old.number draws.new.number (each tick_lines ticks)) }
{
    for tick in 1..TICKS + 1 {
        push_tick(out, draws, tick)?;
    }
    Ok(())
}
