//! The trial of a seed: its document is run, and the summary printed.

ghost use Rattle.std.specs.Prelude.{◌≡◌, Some, None, IfOk, IfErr, IsErrOf};
ghost use Rattle.titan_wire.specs.Steady.{steady_left};
ghost use Rattle.titan_wire.specs.Wire.{Rose};
ghost use Rattle.run_form.specs.RunMachine.{run_first};
ghost use Rattle.run_form.specs.declared.notation.Notation.TheVariants.{Summary};
ghost use Rattle.titan_top.specs.Streams.{HasRoomForWords, IsDrivenAs};
ghost use Rattle.titan_top.specs.declared.words.Form.TheVariants.{Trial};
ghost use Rattle.trial_maker.specs.Documents.{document};

use line_machine::{Cut, End, Unwatched, drive};
use run_form::{Notation, RunMachine, open_run};
use std::alloc::{AllocError, Global};
use titan_wire::{Sink, SteadySource};
use trial_maker::trial;

/// The machine of a trial, and its document as a source.
fn open(alloc: Global, seed: u64) -> Result<(RunMachine, SteadySource), AllocError>
    ensures machine { IfOk result (λ r. r.0 ≡ run_first (Summary seed)) }
    ensures document { IfOk result (λ r. steady_left r.1 ≡ Some (document seed)) }
{
    let machine = open_run(alloc, Notation::Summary(seed))?;
    let text = trial(alloc, seed)?;
    Ok((machine, SteadySource::new(text.into_vec())))
}

/// Runs the document of the seed, and sends the summary.
pub fn drive_trial<K: Sink>(alloc: Global, seed: u64, sink: &mut K) -> Result<End, Cut>
    requires { HasRoomForWords (Some (Trial seed)) None (K.space sink.old) }
    ensures driven { IsDrivenAs (Trial seed) None None (K.written sink.old) (K.written sink.new)
        None None result }
    ensures read { IsErrOf result Cut.ReadFault → ⊥ }
    ensures write { IsErrOf result Cut.WriteFault → Rose (K.faults sink.old) (K.faults sink.new) }
    ensures quiet { ¬ (IsErrOf result Cut.WriteFault) → K.faults sink.new ≡ K.faults sink.old }
    ensures complete { ¬ (Rose (K.faults sink.old) (K.faults sink.new)) →
        IfErr result (λ c. c ≡ Cut.Memory) }
{
    match open(alloc, seed) {
        Ok((mut machine, mut source)) => {
            drive::<RunMachine, SteadySource, K, Unwatched>(alloc, &mut machine, &mut source, sink)
        }
        Err(_) => Err(Cut::Memory),
    }
}
