//! Control programs, read line by line, and what a runner asks for in each turn.

ghost use Rattle.std.specs.Prelude.{◌≡◌, All, IfSome, IsTrue, None};
ghost use Rattle.cca_base.specs.Prelude.{IsFormula};
ghost use Rattle.control_program.specs.Formulas.{formulas_left};
ghost use Rattle.control_syntax.specs.Kept.{MayRunSoFar};
ghost use Rattle.control_syntax.specs.Program.{MayRun};

use cca_base::*;
use conformance_parts::{STICKING_VALVE, model_of, pair, state_of};
use control_program::Runner;
use control_syntax::{Part, ProgramEnd, ProgramReader};
use std::alloc::Global;
use std::test::*;

/// Opens the valve, and then switches its driver off while something flows.
const OPEN_AND_OFF: &[&str] = &[
    "program",
    "seq",
    "reach valve = open",
    "both",
    "reach drv = off",
    "await flow = some",
    "done",
    "done",
];

/// Switches the driver on and off, twice.
const ON_AND_OFF: &[&str] = &[
    "program",
    "repeat 2",
    "reach drv = on",
    "reach drv = off",
    "done",
];

/// Switches the driver on where the valve is closed, else off.
const ON_OR_OFF: &[&str] = &[
    "program",
    "choose valve = closed",
    "reach drv = on",
    "otherwise",
    "reach drv = off",
    "done",
];

/// Whether the program goes on behind each of the lines.
fn goes_on(reader: &mut ProgramReader, model: &Model, lines: &[&str]) -> bool
    requires going { reader.old.whole ≡ None }
    requires kept { MayRunSoFar model.now reader.old }
    ensures going { IsTrue result → reader.new.whole ≡ None }
    ensures kept { MayRunSoFar model.now reader.new }
{
    for line in lines {
        match reader.line(model, line.as_bytes()) {
            Ok(ProgramEnd::Going) => {}
            _ => return false,
        }
    }
    true
}

/// The program of these lines, if it goes on behind each of them and is whole behind the line `end`.
fn program_of(alloc: Global, model: &Model, lines: &[&str]) -> Option<Part>
    ensures { IfSome result (MayRun model.now) }
{
    let mut reader = ProgramReader::open(alloc).ok()?;
    if !goes_on(&mut reader, model, lines) {
        return None;
    }
    match reader.line(model, b"end") {
        Ok(ProgramEnd::Whole) => Some(reader.finish()),
        _ => None,
    }
}

/// Whether the part asks for this pair alone.
fn asks_for(part: &Part, wanted: Pair) -> bool {
    match part {
        Part::Reach(pairs) => match pairs.as_slice() {
            [pair] => *pair == wanted,
            _ => false,
        },
        _ => false,
    }
}

/// Whether the part waits until this subject has one of these values.
fn waits_for(part: &Part, wanted: Subject, among: ValueSet) -> bool {
    match part {
        Part::Await(Formula::Among { subject, values }) => *subject == wanted && *values == among,
        _ => false,
    }
}

/// Whether the parts, side by side, switch the driver off and wait for a flow.
fn are_off_and_flow(part: &Part) -> bool {
    match part {
        Part::Both(parts) => match parts.as_slice() {
            [off, flow] => {
                let some = ValueSet::empty().with(1);
                asks_for(off, pair(0, 0)) && waits_for(flow, Subject::Variable(0), some)
            }
            _ => false,
        },
        _ => false,
    }
}

/// Whether the part first opens the valve, and then does these.
fn is_open_and_off(part: &Part) -> bool {
    match part {
        Part::Seq(parts) => match parts.as_slice() {
            [open, both] => asks_for(open, pair(1, 1)) && are_off_and_flow(both),
            _ => false,
        },
        _ => false,
    }
}

/// Whether the program is one part, which does so.
fn is_program(program: &Part) -> bool {
    match program {
        Part::Seq(parts) => match parts.as_slice() {
            [part] => is_open_and_off(part),
            _ => false,
        },
        _ => false,
    }
}

/// Whether the lines are read to their tree.
fn is_read(alloc: Global, model: &Model) -> bool {
    match program_of(alloc, model, OPEN_AND_OFF) {
        Some(program) => is_program(&program),
        None => false,
    }
}

/// The same over the sticking valve.
fn is_read_whole(alloc: Global) -> bool {
    match model_of(alloc, STICKING_VALVE) {
        Some(model) => is_read(alloc, &model),
        None => false,
    }
}

#[test]
fn a_program_is_read_to_its_tree(rt: HostRuntime) {
    assert!(rt; is_read_whole(rt.alloc()));
}

/// The runner of the program of these lines.
fn runner_of(alloc: Global, model: &Model, lines: &[&str]) -> Option<Runner>
    ensures { IfSome result (λ r. All (IsFormula model.now) (formulas_left r.program)) }
{
    let program = program_of(alloc, model, lines)?;
    Runner::open(alloc, program).ok()
}

/// The modes of an estimate, the goal of a turn with it, and whether the program has ended with that turn.
type Turn<'a> = (&'a [u8], &'a [Pair], bool);

/// The goal of a turn with the estimate of these modes.
fn turned(alloc: Global, runner: &mut Runner, model: &Model, modes: &[u8]) -> Option<List<Pair>>
    requires { All (IsFormula model.now) (formulas_left runner.old.program) }
    ensures { runner.new.program ≡ runner.old.program }
{
    let estimate = state_of(alloc, model, modes)?;
    runner.turn(model, &estimate).ok()
}

/// Whether the next turn is this one.
fn makes_turn(alloc: Global, runner: &mut Runner, model: &Model, turn: Turn<'_>) -> bool
    requires { All (IsFormula model.now) (formulas_left runner.old.program) }
    ensures { runner.new.program ≡ runner.old.program }
{
    match turned(alloc, runner, model, turn.0) {
        Some(goal) => goal.as_slice() == turn.1 && runner.ended() == turn.2,
        None => false,
    }
}

/// Whether the next turns are these.
fn makes_turns(alloc: Global, runner: &mut Runner, model: &Model, turns: &[Turn<'_>]) -> bool
    requires { All (IsFormula model.now) (formulas_left runner.old.program) }
    ensures { runner.new.program ≡ runner.old.program }
{
    for turn in turns {
        if !makes_turn(alloc, runner, model, *turn) {
            return false;
        }
    }
    true
}

/// Whether the program makes the first turns, and behind a reset the second.
fn runs(
    alloc: Global,
    model: &Model,
    lines: &[&str],
    first: &[Turn<'_>],
    second: &[Turn<'_>],
) -> bool {
    let Some(mut runner) = runner_of(alloc, model, lines) else {
        return false;
    };
    if !makes_turns(alloc, &mut runner, model, first) {
        return false;
    }
    runner.reset();
    makes_turns(alloc, &mut runner, model, second)
}

/// The same over the sticking valve.
fn valve_runs(alloc: Global, lines: &[&str], first: &[Turn<'_>], second: &[Turn<'_>]) -> bool {
    match model_of(alloc, STICKING_VALVE) {
        Some(model) => runs(alloc, &model, lines, first, second),
        None => false,
    }
}

/// Each turn has the estimate of the tick before it, the first one the start.
#[test]
fn a_program_opens_the_valve_and_switches_off(rt: HostRuntime) {
    let open: &[Pair] = &[pair(1, 1)];
    let off: &[Pair] = &[pair(0, 0)];
    let turns: [Turn<'_>; 6] = [
        (&[0, 0], open, false),
        (&[0, 0], open, false),
        (&[1, 0], open, false),
        (&[1, 1], off, false),
        (&[1, 1], off, false),
        (&[0, 1], &[], true),
    ];
    assert!(rt; valve_runs(rt.alloc(), OPEN_AND_OFF, &turns, &turns));
}

/// The second round begins in the turn behind the one in which the first has ended.
#[test]
fn a_program_goes_round(rt: HostRuntime) {
    let on: &[Pair] = &[pair(0, 1)];
    let off: &[Pair] = &[pair(0, 0)];
    let turns: [Turn<'_>; 10] = [
        (&[0, 0], on, false),
        (&[0, 0], on, false),
        (&[1, 0], off, false),
        (&[1, 0], off, false),
        (&[0, 0], &[], false),
        (&[0, 0], on, false),
        (&[0, 0], on, false),
        (&[1, 0], off, false),
        (&[1, 0], off, false),
        (&[0, 0], &[], true),
    ];
    assert!(rt; valve_runs(rt.alloc(), ON_AND_OFF, &turns, &turns));
}

/// What was chosen stays so while the valve moves, until a reset.
#[test]
fn a_choice_stays_until_a_reset(rt: HostRuntime) {
    let on: &[Pair] = &[pair(0, 1)];
    let off: &[Pair] = &[pair(0, 0)];
    let first: [Turn<'_>; 2] = [(&[0, 0], on, false), (&[0, 1], on, false)];
    let second: [Turn<'_>; 3] = [
        (&[1, 1], off, false),
        (&[1, 0], off, false),
        (&[0, 0], &[], true),
    ];
    assert!(rt; valve_runs(rt.alloc(), ON_OR_OFF, &first, &second));
}
