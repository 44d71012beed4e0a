//! The lines of one tick of a printed trace, one after the other.

ghost use Rattle.std.specs.Prelude.{◌≡◌};
ghost use Rattle.check_form.specs.TickLines.{has_route, has_world, next_lines, tick_lines, with_report, with_world};

use cca_base::{PlanEnd, Reply, Route, Shown, TickReport, World};
use trace_text::TraceLine;

/// What was read of a tick's lines, where more of them have to come.
#[derive(Debug, Drop)]
pub enum TickSoFar {
    /// Nothing yet.
    Nothing,
    /// The tick's line.
    Reported(TickReport),
    /// The tick's line and the world of its estimate.
    Explained(TickReport, World),
    /// The same, and the plan that its command begins.
    Planned(TickReport, World, PlanEnd),
}

/// What is printed of a tick.
#[derive(Debug, Drop)]
pub struct PrintedTick {
    pub report: TickReport,
    pub world: Option<World>,
    pub route: Option<Route>,
}

/// What a tick's lines are with one more.
#[derive(Debug, Drop)]
pub enum TickLines {
    /// The line isn't the one that is needed.
    NotNext,
    /// More of them have to come.
    More(TickSoFar),
    /// They are all there.
    Whole(PrintedTick),
}

/// Whether a world belongs to what is shown.
fn has_world(shown: &Shown) -> bool
    ensures { result ≡ has_world shown.now }
{
    matches!(shown, Shown::Estimated { .. })
}

/// Whether a plan and a way back belong to what is shown.
fn has_route(shown: &Shown) -> bool
    ensures { result ≡ has_route shown.now }
{
    matches!(
        shown,
        Shown::Estimated {
            reply: Reply::Send(_),
            ..
        }
    )
}

/// A tick's line comes first, if it has the number of the next tick.
fn with_report(ticks: u64, report: TickReport) -> TickLines
    ensures { tick_lines result ≡ with_report ticks report }
{
    if report.tick == 0 || report.tick - 1 != ticks {
        TickLines::NotNext
    } else if has_world(&report.shown) {
        TickLines::More(TickSoFar::Reported(report))
    } else {
        TickLines::Whole(PrintedTick {
            report,
            world: None,
            route: None,
        })
    }
}

/// A world behind a tick's line.
fn with_world(report: TickReport, world: World) -> TickLines
    ensures { tick_lines result ≡ with_world report world }
{
    if has_route(&report.shown) {
        TickLines::More(TickSoFar::Explained(report, world))
    } else {
        TickLines::Whole(PrintedTick {
            report,
            world: Some(world),
            route: None,
        })
    }
}

/// The lines of a tick with one more, behind so many ticks.
pub fn next_lines(ticks: u64, lines: TickSoFar, line: TraceLine) -> TickLines
    ensures { tick_lines result ≡ next_lines ticks lines line }
{
    match (lines, line) {
        (TickSoFar::Nothing, TraceLine::Tick(report)) => with_report(ticks, report),
        (TickSoFar::Reported(report), TraceLine::World(world)) => with_world(report, world),
        (TickSoFar::Explained(report, world), TraceLine::Plan(plan)) => {
            TickLines::More(TickSoFar::Planned(report, world, plan))
        }
        (TickSoFar::Planned(report, world, plan), TraceLine::Back(back)) => {
            TickLines::Whole(PrintedTick {
                report,
                world: Some(world),
                route: Some(Route { plan, back }),
            })
        }
        _ => TickLines::NotNext,
    }
}
