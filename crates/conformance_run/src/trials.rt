//! The plant of a trial: the document of a seed, followed line by line.

ghost use Rattle.std.specs.Prelude.{◌≡◌, ◌<◌, ◌≤◌, ◌+◌};

use crate::executives::{event_of, opened};
use cca_base::List;
use executive_loop::Executive;
use std::alloc::Global;
use std::test::*;
use trial_maker::trial;

/// The document of a seed.
fn document(alloc: Global, seed: u64) -> Option<List<u8>> {
    trial(alloc, seed).ok()
}

/// Makes the event of a line; the estimate of a tick has to be where the plant stood.
fn estimate_is_plant(alloc: Global, executive: &mut Executive, line: &str) -> bool
    requires { executive.old.state.ticks < 10000 }
    ensures { executive.new.state.ticks ≤ executive.old.state.ticks + 1 }
{
    let Ok(plant) = executive.plant().copy(alloc) else {
        return false;
    };
    let Some(event) = event_of(alloc, executive, line) else {
        return false;
    };
    match executive.event(&event) {
        Ok(Some(_)) => executive.estimate().modes.as_slice() == plant.modes.as_slice(),
        Ok(None) => true,
        Err(_) => false,
    }
}

/// How many lines the script has, if each estimate of its ticks from the start on is where the plant stood.
fn followed(alloc: Global, executive: &mut Executive, script: &str) -> Option<u64>
    requires { executive.old.state.ticks ≡ 0 }
{
    let mut made = 0u64;
    for line in script.lines() {
        if made == 9999 || !estimate_is_plant(alloc, executive, line) {
            return None;
        }
        made += 1;
    }
    Some(made)
}

/// The same of the script of a document.
fn lines_followed(alloc: Global, text: &str) -> Option<u64> {
    let (model, script) = text.split_once("\nscript\n")?;
    match opened(alloc, model) {
        None => None,
        Some(mut executive) => followed(alloc, &mut executive, script),
    }
}

/// The same of the document of a seed.
fn script_followed(alloc: Global, seed: u64) -> Option<u64> {
    let text = document(alloc, seed)?;
    match std::str::from_utf8(text.as_slice()) {
        Ok(text) => lines_followed(alloc, text),
        Err(_) => None,
    }
}

#[test]
fn each_estimate_of_a_trial_is_the_plant(rt: HostRuntime) {
    assert!(rt; script_followed(rt.alloc(), 7) == Some(271));
}
