//! The top call over a source and a sink that never fail: it comes to its end, or memory runs out. That such a caller is proved from
//! the call's contract alone shows that no body may always answer a fault.
ghost use Rattle.std.specs.Prelude.{◌≡◌, ◌≢◌, ◌⊎◌};
ghost use Rattle.titan_wire.specs.Steady.{steady_left, steady_space};
ghost use Rattle.titan_top.specs.Output.{NothingRefused, SomeRefused};
ghost use Rattle.titan_top.specs.Streams.{HasRoomForWords, OfInput};
ghost use Rattle.titan_top.specs.Words.{asked};

use std::alloc::Global;
use titan_top::{Status, titan};
use titan_wire::{SteadySink, SteadySource};

/// Runs the program in memory.
pub fn run_steady(
    alloc: Global,
    words: &Vec<String>,
    source: &mut SteadySource,
    sink: &mut SteadySink,
) -> Status
    requires { HasRoomForWords (asked words.now.items) (steady_left source.old)
        (steady_space sink.old) }
    ensures read { result ≢ Status.ReadFault }
    ensures write { result ≢ Status.WriteFault }
    ensures ended { OfInput (asked words.now.items) (steady_left source.old) (λ input.
        NothingRefused (asked words.now.items) input →
        (result ≡ Status.Ended) ⊎ (result ≡ Status.Memory)) }
    ensures refused { OfInput (asked words.now.items) (steady_left source.old) (λ input.
        SomeRefused (asked words.now.items) input →
        (result ≡ Status.Refused) ⊎ (result ≡ Status.Memory)) }
{
    titan(alloc, words, source, sink)
}
