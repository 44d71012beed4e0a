//! An event behind a program: the program turns before each tick, and begins again at a reset.

ghost use Rattle.std.specs.Prelude.{◌≡◌, ◌&&◌, ◌+◌, ◌<◌, ◌^◌, not, None, Option, Some, OnOk};
ghost use Rattle.cca_base.specs.Prelude.{MayCome, Promising};
ghost use Rattle.cca_base.specs.declared.events.Event.{Event};
ghost use Rattle.cca_base.specs.declared.events.Event.TheVariants.{Tick};
ghost use Rattle.control_laws.specs.Turns.{TurnsBy};
ghost use Rattle.control_program.specs.Rooms.{goal_in};
ghost use Rattle.byte_buffer.specs.Outs.{Appended, HasRoomLeft, IsFront};
ghost use Rattle.line_machine.specs.Steady.{TookNone};
ghost use Rattle.executive_loop.specs.Borrowed.{event_read, report_with};
ghost use Rattle.trace_laws.specs.Events.{Acts, IsTick};
ghost use Rattle.program_form.specs.Printed.{most_told};
ghost use Rattle.program_form.specs.PutIn.{TurnsBefore, asks, ends, left_by};
ghost use Rattle.program_form.specs.ProgramMachine.{MakesEvent, PrintsEvent, Prepares, sequencer};
ghost use Rattle.program_form.specs.Stages.{RunsInRoom};

use crate::running::Running;
use crate::told::tell;
use cca_base::Pair;
use control_program::Runner;
use executive_loop::{EventRef, Made, SteadyExecutive};
use line_machine::Out;
use std::alloc::AllocError;

/// The event that sets a goal, or clears it where the goal has no pair.
fn asks(goal: &[Pair]) -> EventRef<'_>
    ensures { event_read result ≡ asks goal.now }
{
    if goal.is_empty() {
        EventRef::Clear
    } else {
        EventRef::Goal(goal)
    }
}

/// Sets a goal, or clears it where the goal has no pair.
#[tactic(auto, using(crate::proofs::RunningWell::asks_no_tick))]
fn ask(executive: &mut SteadyExecutive, goal: &[Pair])
    requires may_come { MayCome executive.old.compiled.model executive.old.state.pending
        executive.old.state.mirrored (asks goal.now) }
    requires room { executive.old.state.ticks + 1 < 2 ^ 64 }
    ensures acts { Acts executive.old.compiled (Promising executive.old.compiled)
        executive.old.state (asks goal.now) executive.new.state None }
    ensures compiled { executive.new.compiled ≡ executive.old.compiled }
{
    let _none = executive.act(asks(goal));
}

/// A turn of the program with the executive's estimate: its goal stands in the room, and may be set.
#[tactic(auto, using(crate::proofs::RunningWell::well_after))]
fn turn(executive: &SteadyExecutive, running: &mut Running)
    requires well { RunsInRoom executive.now.compiled.model running.old }
    ensures turn { TurnsBy executive.now.compiled.model executive.now.state.estimate
        running.old.runner (goal_in running.new.room) running.new.runner }
    ensures may_come { MayCome executive.now.compiled.model executive.now.state.pending
        executive.now.state.mirrored (asks (goal_in running.new.room)) }
    ensures well { RunsInRoom executive.now.compiled.model running.new }
{
    let model = executive.compiled().model();
    let worlds = executive.worlds();
    running
        .runner
        .turn_in(model, worlds, executive.estimate(), &mut running.room);
}

/// Whether a program has ended that had not ended before.
fn ends(before: bool, after: bool) -> bool
    ensures { result ≡ (not before && after) }
{
    !before && after
}

/// The program's turn before a tick, and the event that sets its goal; neither while the executive is holding. Answers whether the program
/// has ended in the turn.
fn prepare(executive: &mut SteadyExecutive, running: &mut Running) -> bool
    requires well { RunsInRoom executive.old.compiled.model running.old }
    requires room { executive.old.state.ticks + 1 < 2 ^ 64 }
    ensures puts { (put : Option Event)
        × TurnsBefore executive.old.state.holding executive.old.compiled.model
        (sequencer executive.old.state running.old.runner) put running.new.runner
        × Prepares executive.old.compiled executive.old.state put executive.new.state
        × (result ≡ ends running.old.runner running.new.runner) }
    ensures compiled { executive.new.compiled ≡ executive.old.compiled }
    ensures well { RunsInRoom executive.old.compiled.model running.new }
{
    if executive.holding() {
        return false;
    }
    let before = running.runner.ended();
    turn(executive, running);
    ask(executive, running.room.goal());
    ends(before, running.runner.ended())
}

/// Makes a tick.
fn tick(executive: &mut SteadyExecutive) -> Made
    requires room { executive.old.state.ticks + 1 < 2 ^ 64 }
    ensures acts { Acts executive.old.compiled (Promising executive.old.compiled)
        executive.old.state Tick executive.new.state
        (Some (report_with executive.new.state.estimate result)) }
    ensures compiled { executive.new.compiled ≡ executive.old.compiled }
{
    match executive.act(EventRef::Tick) {
        Some(made) => made,
        None => unreachable!(),
    }
}

/// Makes a tick with the program's turn before it, and appends what is printed of it. The error is out of memory.
fn make_tick(
    executive: &mut SteadyExecutive,
    running: &mut Running,
    out: &mut Out,
) -> Result<(), AllocError>
    requires well { RunsInRoom executive.old.compiled.model running.old }
    requires room { executive.old.state.ticks + 1 < 2 ^ 64 }
    ensures makes { OnOk result (Appended (PrintsEvent executive.old.compiled executive.old.state
        running.old.runner Tick executive.new.state running.new.runner) out.old out.new) }
    ensures compiled { executive.new.compiled ≡ executive.old.compiled }
    ensures well { RunsInRoom executive.old.compiled.model running.new }
    ensures front { IsFront out.old out.new }
    ensures steady { HasRoomLeft out.old (most_told executive.old.compiled.model) →
        TookNone out.old result out.new }
{
    let ended = prepare(executive, running);
    let made = tick(executive);
    let model = executive.compiled().model();
    tell(model, made, executive.estimate(), ended, out)
}

/// Follows an event that is no tick: a reset begins the program again.
fn follow(runner: &mut Runner, event: EventRef<'_>)
    ensures { runner.new ≡ left_by (event_read event.entry) runner.old }
{
    match event {
        EventRef::Reset => runner.reset(),
        EventRef::Goal(_)
        | EventRef::Clear
        | EventRef::Observe(_)
        | EventRef::Fault(_)
        | EventRef::Mirror(_)
        | EventRef::Tick => {}
    }
}

/// Makes an event that is no tick.
fn make_other(executive: &mut SteadyExecutive, running: &mut Running, event: EventRef<'_>)
    requires may_come { MayCome executive.old.compiled.model executive.old.state.pending
        executive.old.state.mirrored (event_read event) }
    requires other { IsTick (event_read event) → ⊥ }
    requires well { RunsInRoom executive.old.compiled.model running.old }
    requires room { executive.old.state.ticks + 1 < 2 ^ 64 }
    ensures makes { MakesEvent executive.old.compiled executive.old.state running.old.runner
        (event_read event.entry) executive.new.state running.new.runner None }
    ensures compiled { executive.new.compiled ≡ executive.old.compiled }
    ensures well { RunsInRoom executive.old.compiled.model running.new }
{
    let _none = executive.act(event);
    follow(&mut running.runner, event);
}

/// Makes an event, which is one tick at most, and appends what is printed of it. The error is out of memory.
#[tactic(auto, using(crate::proofs::MadeEvents::no_tick, crate::proofs::TicksCount::makes_count))]
pub fn make(
    executive: &mut SteadyExecutive,
    running: &mut Running,
    event: EventRef<'_>,
    out: &mut Out,
) -> Result<(), AllocError>
    requires may_come { MayCome executive.old.compiled.model executive.old.state.pending
        executive.old.state.mirrored (event_read event) }
    requires well { RunsInRoom executive.old.compiled.model running.old }
    requires room { executive.old.state.ticks + 1 < 2 ^ 64 }
    ensures makes { OnOk result (Appended (PrintsEvent executive.old.compiled executive.old.state
        running.old.runner (event_read event.entry) executive.new.state running.new.runner) out.old out.new) }
    ensures ticks { OnOk result (executive.new.state.ticks < executive.old.state.ticks + 2) }
    ensures compiled { executive.new.compiled ≡ executive.old.compiled }
    ensures well { RunsInRoom executive.old.compiled.model running.new }
    ensures front { IsFront out.old out.new }
    ensures steady { HasRoomLeft out.old (most_told executive.old.compiled.model) →
        TookNone out.old result out.new }
{
    if let EventRef::Tick = event {
        return make_tick(executive, running, out);
    }
    make_other(executive, running, event);
    Ok(())
}
