//! The one call that the program makes.

ghost use Rattle.std.specs.Prelude.{◌≡◌, ◌⊎◌, ℕ, List, IfSome, IsErrOf, Some, length};
ghost use Rattle.std.specs.Io.KnownBytes.{prepend_known, IsAtEnd};
ghost use Rattle.titan_wire.specs.Wire.{Rose, HasRoom};
ghost use Rattle.line_machine.specs.Faults.{AnswersFaults};
ghost use Rattle.model_form.specs.FormMeaning.{promises_of};
ghost use Rattle.model_form.specs.ModelEnds.{HoldsModel};
ghost use Rattle.run_form.specs.declared.notation.Notation.TheVariants.{Words};
ghost use Rattle.titan_top.specs.CheckedTrace.{IsCheckedTrace};
ghost use Rattle.titan_top.specs.Faults.{TellsFaults};
ghost use Rattle.titan_top.specs.FormFront.{IsFrontOf};
ghost use Rattle.titan_top.specs.LastRead.{BeforeLastRead};
ghost use Rattle.titan_top.specs.Meanings.{meaning_of};
ghost use Rattle.titan_top.specs.Output.{Outcome, IsOutcome, OfAnswer, NothingRefused, SomeRefused, SomeRejected, IsCut, usage, usage_text, AreNoForm};
ghost use Rattle.titan_top.specs.OwnTraces.{HasOwnTrace};
ghost use Rattle.titan_top.specs.Streams.{HasRoomForWords, IsDrivenAs, OfInput, StreamsAs};
ghost use Rattle.titan_top.specs.Wire.{Writes, WritesAs};
ghost use Rattle.titan_top.specs.Words.{asked, IsForm};

use crate::status::{Status, status_of};
use crate::trial::drive_trial;
use crate::words::{Form, form_of};
use check_form::{CheckMachine, open_check};
use line_machine::{Cut, End, Intake, Unwatched, drive_opened};
use migrate_form::{MigrateMachine, open_migrate};
use program_form::{ProgramMachine, open_program};
use run_form::{RunMachine, open_run};
use show_form::{ShowMachine, open_show};
use std::alloc::Global;
use titan_wire::{PutEnd, Sink, Source, put_all};
use want_form::{WantMachine, open_want};
use watch_form::{WatchMachine, open_watch};

/// Drives the machine of a form of words. The source is asked by an intake, so that the order of reads and writes can be said.
fn drive_form<S, K: Sink, I: Intake<S, K>>(
    alloc: Global,
    form: Form,
    source: &mut S,
    sink: &mut K,
) -> Result<End, Cut>
    requires { HasRoomForWords (Some form) (I.left source.old) (K.space sink.old) }
    ensures driven { IsDrivenAs form (I.left source.old) (I.left source.new) (K.written sink.old)
        (K.written sink.new)
        (I.calls source.old) (I.calls source.new) result }
    ensures not_asked { (seed : ℕ) → form ≡ Form.Trial seed → source.new ≡ source.old }
    ensures not_read { (seed : ℕ) → form ≡ Form.Trial seed → IsErrOf result Cut.ReadFault → ⊥ }
    ensures faults { AnswersFaults (I.faults source.old) (I.faults source.new) (K.faults sink.old)
        (K.faults sink.new) result }
{
    match form {
        Form::Run(notation) => {
            drive_opened::<RunMachine, S, K, I>(alloc, open_run(alloc, notation), source, sink)
        }
        Form::Show => drive_opened::<ShowMachine, S, K, I>(alloc, open_show(alloc), source, sink),
        Form::Trial(seed) => drive_trial(alloc, seed, sink),
        Form::Check => drive_opened::<CheckMachine, S, K, I>(
            alloc,
            open_check(alloc),
            source,
            sink,
        ),
        Form::Migrate => drive_opened::<MigrateMachine, S, K, I>(
            alloc,
            open_migrate(alloc),
            source,
            sink,
        ),
        Form::Want => drive_opened::<WantMachine, S, K, I>(alloc, open_want(alloc), source, sink),
        Form::Watch => drive_opened::<WatchMachine, S, K, I>(
            alloc,
            open_watch(alloc),
            source,
            sink,
        ),
        Form::Program => drive_opened::<ProgramMachine, S, K, I>(
            alloc,
            open_program(alloc),
            source,
            sink,
        ),
    }
}

/// Sends the line for words of no form.
fn send_usage<K: Sink>(sink: &mut K) -> Status
    requires { HasRoom (K.space sink.old) (length usage_text) }
    ensures sent { Writes result (K.written sink.old) (K.written sink.new) usage }
    ensures fault { result ≡ Status.WriteFault → Rose (K.faults sink.old) (K.faults sink.new) }
    ensures quiet { ¬ (result ≡ Status.WriteFault) → K.faults sink.new ≡ K.faults sink.old }
    ensures only { (result ≡ Status.Usage) ⊎ (result ≡ Status.WriteFault) }
{
    match put_all(sink, b"usage: see the forms of titan\n") {
        PutEnd::Done => Status::Usage,
        PutEnd::WriteFault { .. } => Status::WriteFault,
    }
}

/// Does all that the program does: `words` are those of the command line after the program's own name.
pub fn titan<S: Source, K: Sink>(
    alloc: Global,
    words: &Vec<String>,
    source: &mut S,
    sink: &mut K,
) -> Status
    requires { HasRoomForWords (asked words.now.items) (S.left source.old) (K.space sink.old) }

    // Over every source: some bytes, those that were taken where they are known, what the form's machine says of them, and what of it
    // was written.
    ensures streamed { (form : Form) → IsForm words.now.items form →
        StreamsAs form (S.left source.old) (S.left source.new) (K.written sink.old)
        (K.written sink.new) result }

    // Over a source whose bytes are known, and for a trial over every one: the whole text of the words and the input, or a front of it.
    ensures text { OfInput (asked words.now.items) (S.left source.old) (λ input.
        WritesAs result (K.written sink.old) (K.written sink.new)
        (IsOutcome words.now.items input)) }

    // What the form promises: its text is what it says of how the input's model ends, and of the lines behind an accepted one; and what else
    // it promises of that. The laws of `promises_by_name` say both form by form.
    ensures promised { (form : Form) → IsForm words.now.items form →
        OfInput (asked words.now.items) (S.left source.old) (λ input.
        (o : Outcome) → IsOutcome words.now.items input o →
        OfAnswer (promises_of (meaning_of form) input) o) }
    ensures also { (form : Form) → IsForm words.now.items form →
        OfInput (asked words.now.items) (S.left source.old) (λ input.
        (o : Outcome) → IsOutcome words.now.items input o →
        OfAnswer ((meaning_of form).also input) o) }

    // What was cut short, by a fault or out of memory, has written nothing, or a front of the whole answer of some bytes that came first, of which
    // the form promises the same; and that owes nothing to their stopping there.
    ensures front { (form : Form) → IsForm words.now.items form → IsCut result →
        OfInput (asked words.now.items) (S.left source.old) (λ input.
        IsFrontOf form input (S.left source.new) (K.written sink.old) (K.written sink.new)) }

    // The theorem of the checker: what gets a Yes is a model, a script and the text of its ticks, each of which is a consistent successor
    // of its cost, fits its goal, and sends only what is safe.
    ensures checked { IsForm words.now.items Form.Check → IfSome (S.left source.old) (λ input.
        (o : Outcome) → IsOutcome words.now.items input o → o.status ≡ Status.Ended →
        IsCheckedTrace input o) }

    // The input has no line that is refused, or its first one is named. A check has no No either, or its first one comes first.
    ensures ended { result ≡ Status.Ended →
        OfInput (asked words.now.items) (S.left source.old)
        (NothingRefused (asked words.now.items)) }
    ensures refused { result ≡ Status.Refused →
        OfInput (asked words.now.items) (S.left source.old) (SomeRefused (asked words.now.items)) }
    ensures rejected { result ≡ Status.Rejected →
        OfInput (asked words.now.items) (S.left source.old) (SomeRejected (asked words.now.items)) }

    // Without a fault that is how the program ends, or memory ran out.
    ensures ended_where { ¬ (Rose (S.faults source.old) (S.faults source.new)) →
        ¬ (Rose (K.faults sink.old) (K.faults sink.new)) →
        OfInput (asked words.now.items) (S.left source.old) (λ input.
        NothingRefused (asked words.now.items) input → (result ≡ Status.Ended)
        ⊎ (result ≡ Status.Memory)) }
    ensures refused_where { ¬ (Rose (S.faults source.old) (S.faults source.new)) →
        ¬ (Rose (K.faults sink.old) (K.faults sink.new)) →
        OfInput (asked words.now.items) (S.left source.old) (λ input.
        SomeRefused (asked words.now.items) input → (result ≡ Status.Refused)
        ⊎ (result ≡ Status.Memory)) }
    ensures rejected_where { ¬ (Rose (S.faults source.old) (S.faults source.new)) →
        ¬ (Rose (K.faults sink.old) (K.faults sink.new)) →
        OfInput (asked words.now.items) (S.left source.old) (λ input.
        SomeRejected (asked words.now.items) input → (result ≡ Status.Rejected)
        ⊎ (result ≡ Status.Memory)) }

    // What a run with proofs prints is accepted: behind its own text, of which nothing is refused, a check of it ends with a Yes to each tick.
    ensures own_traces { ¬ (Rose (S.faults source.old) (S.faults source.new)) →
        ¬ (Rose (K.faults sink.old) (K.faults sink.new)) →
        IsForm words.now.items Form.Check →
        IfSome (S.left source.old) (λ input.
        HasOwnTrace input → (result ≡ Status.Ended) ⊎ (result ≡ Status.Memory)) }

    // Each fault has its cause, and none is passed over: a read that fails comes out as ReadFault, and a write that fails as WriteFault.
    ensures faults { TellsFaults (S.faults source.old) (S.faults source.new)
        (K.faults sink.old) (K.faults sink.new) result }

    // Words of no form, whether or not the bytes of the source are known.
    ensures usage { result ≡ Status.Usage → AreNoForm words.now.items }
    ensures no_form { AreNoForm words.now.items →
        Writes result (K.written sink.old) (K.written sink.new) usage }
    ensures only_usage { AreNoForm words.now.items → (result ≡ Status.Usage)
        ⊎ (result ≡ Status.WriteFault) }
    ensures not_asked { AreNoForm words.now.items → source.new ≡ source.old }

    // A trial asks the source for nothing, so nothing fails to be read.
    ensures trial_not_asked { (seed : ℕ) → IsForm words.now.items (Form.Trial seed) →
        source.new ≡ source.old }
    ensures trial_not_read { (seed : ℕ) → IsForm words.now.items (Form.Trial seed) →
        result ≡ Status.ReadFault → ⊥ }

    // Where no fault rose, the status is the outcome's, or memory ran out.
    ensures complete { ¬ (Rose (S.faults source.old) (S.faults source.new)) →
        ¬ (Rose (K.faults sink.old) (K.faults sink.new)) →
        OfInput (asked words.now.items) (S.left source.old) (λ input.
        ((o : Outcome) × IsOutcome words.now.items input o × (result ≡ o.status))
        ⊎ (result ≡ Status.Memory)) }

    // Behind an accepted model a run in words takes no memory: where it ran out, the bytes before the last read hold no model up to its line
    // `script` that is accepted.
    ensures memory { IsForm words.now.items (Form.Run Words) → result ≡ Status.Memory →
        BeforeLastRead HoldsModel (S.left source.old) (S.left source.new) }

    // Only a check rejects anything.
    ensures only_check { result ≡ Status.Rejected → IsForm words.now.items Form.Check }

    // A form that reads to the end and has ended is at the end of its input; what is shown was read to the line `script`. A silent form has
    // written nothing where a read failed.
    ensures whole { (form : Form) → IsForm words.now.items form →
        (meaning_of form).reads_to_end → result ≡ Status.Ended → IsAtEnd (S.left source.new) }
    ensures to_script { IsForm words.now.items Form.Show → result ≡ Status.Ended →
        (taken : List ℕ) × (S.left source.old ≡ prepend_known taken (S.left source.new))
        × NothingRefused (Some Form.Show) taken }
    ensures silent { (form : Form) → IsForm words.now.items form →
        (meaning_of form).is_silent → result ≡ Status.ReadFault →
        K.written sink.new ≡ K.written sink.old }
{
    match form_of(words) {
        Some(form) => status_of(drive_form::<S, K, Unwatched>(alloc, form, source, sink)),
        None => send_usage(sink),
    }
}
