//! What every program of this repository does in `main`: the words of the command line, standard input and standard output go to the
//! top call. A caller gets the exit status that the top call's answer has.
#![tactic(auto)]

ghost use Rattle.std.specs.Prelude.{◌≡◌, ◌≤◌};
ghost use Rattle.std.specs.Process.{exit_status};
ghost use Rattle.titan_top.specs.Output.{IsOutcome};
ghost use Rattle.titan_top.specs.Statuses.{status_number};
ghost use Rattle.titan_top.specs.Streams.{HasRoomForWords, OfInput};
ghost use Rattle.titan_top.specs.Wire.{WritesAs};
ghost use Rattle.titan_top.specs.Words.{asked};

use std::alloc::Global;
use std::process::ExitCode;
use std::rt::Env;
use std::{env, io};
use titan_top::{Status, titan};
use titan_wire::{ReaderSource, Sink, Source, WriterSink};

/// The words after the program's own name, or how the program ends without them. Where they can't be read as text there
/// are none, which is no form of the program either.
fn words(rt: &(impl Env + AllocGlobal)) -> Result<Vec<String>, Status> {
    let mut words = Vec::new(rt.alloc());
    let args = match env::args(rt) {
        Ok(args) => args,
        Err(e) if e.kind() == io::ErrorKind::OutOfMemory => return Err(Status::Memory),
        Err(_) => return Ok(words),
    };
    for word in args.skip(1) {
        if words.push(word).is_err() {
            return Err(Status::Memory);
        }
    }
    Ok(words)
}

/// The exit status of a program that ended so.
fn exit_code(status: Status) -> ExitCode
    ensures number { exit_status result ≡ status_number status }
    ensures few { exit_status result ≤ 6 }
{
    ExitCode::from(status.number())
}

/// Runs the program over a source and a sink, and answers its exit status: that of a status whose text and end are those of the words
/// and the input.
fn run_over<S: Source, K: Sink>(
    alloc: Global,
    words: &Vec<String>,
    source: &mut S,
    sink: &mut K,
) -> ExitCode
    requires { HasRoomForWords (asked words.now.items) (S.left source.old) (K.space sink.old) }
    ensures status { (s : Status) × (exit_status result ≡ status_number s)
        × OfInput (asked words.now.items) (S.left source.old) (λ input.
        WritesAs s (K.written sink.old) (K.written sink.new) (IsOutcome words.now.items input)) }
    ensures few { exit_status result ≤ 6 }
{
    exit_code(titan(alloc, words, source, sink))
}

/// Does all that the program does, and answers its exit status.
pub fn run<R: Env + Input + Print + AllocGlobal>(rt: &R) -> ExitCode
    ensures { exit_status result ≤ 6 }
{
    match words(rt) {
        Ok(words) => {
            let mut source = ReaderSource::new(rt.reader());
            let mut sink = WriterSink::new(io::writer(rt));
            run_over(rt.alloc(), &words, &mut source, &mut sink)
        }
        Err(status) => exit_code(status),
    }
}
