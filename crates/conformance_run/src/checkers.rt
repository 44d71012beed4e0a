//! Verdicts of a checker on printed ticks.

use crate::compiled::compiled_of;
use cca_base::{Compiled, Event, List, Reply, Shown, State, TickReport, World};
use conformance_parts::STICKING_VALVE;
use plan_checker::{Checker, Verdict};
use std::alloc::{AllocError, Global};
use std::test::*;

fn report_of(alloc: Global, tick: u64, cost: u64) -> Result<TickReport, AllocError> {
    let modes = List::of(Vec::from_slice(alloc, &[0, 0])?);
    Ok(TickReport {
        tick,
        shown: Shown::Estimated {
            cost,
            state: State { modes },
            reply: Reply::Idle,
        },
    })
}

fn world_of(alloc: Global, value: u8) -> Result<World, AllocError> {
    let values = List::of(Vec::from_slice(alloc, &[value])?);
    Ok(World { values })
}

/// What a fresh checker without a goal says of a tick of the valve that stays as it starts.
fn verdict_of(
    alloc: Global,
    compiled: &Compiled,
    report: &TickReport,
    world: &World,
) -> Option<Verdict> {
    let model = compiled.model();
    let mut checker = Checker::open(alloc, model).ok()?;
    checker.event(model, &Event::Clear).ok()?;
    checker.check_tick(model, report, Some(world), None).ok()
}

/// The same, of a tick of this number and cost with this value of the flow.
fn verdict_on(alloc: Global, tick: u64, cost: u64, flow: u8) -> Option<Verdict> {
    let compiled = compiled_of(alloc, STICKING_VALVE)?;
    let report = report_of(alloc, tick, cost).ok()?;
    let world = world_of(alloc, flow).ok()?;
    verdict_of(alloc, &compiled, &report, &world)
}

#[test]
fn a_tick_is_right_in_its_number_cost_and_world(rt: HostRuntime) {
    let alloc = rt.alloc();
    assert!(rt; verdict_on(alloc, 1, 0, 0) == Some(Verdict::Yes));
    assert!(rt; verdict_on(alloc, 2, 1, 1) == Some(Verdict::No(1)));
    assert!(rt; verdict_on(alloc, 1, 1, 1) == Some(Verdict::No(2)));
    assert!(rt; verdict_on(alloc, 1, 0, 1) == Some(Verdict::No(3)));
}
