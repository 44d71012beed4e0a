//! A line that is refused: its refusal is printed.

ghost use Rattle.std.specs.Prelude.{◌≡◌, ℕ, ◌++◌, false, Some, IsSome, OnOk, OnErr};
ghost use Rattle.cca_base.specs.Prelude.{bare, stop_code};
ghost use Rattle.byte_buffer.specs.Outs.{Appended, HasRoomLeft, IsFront};
ghost use Rattle.line_machine.specs.Steady.{TookNone};
ghost use Rattle.model_form.specs.Acceptance.{SaysNotAccepted};
ghost use Rattle.trace_text.specs.Json.{refusal_text};
ghost use Rattle.trace_text.specs.declared.refusal.TheConstants.{REFUSAL_ROOM};

use acceptance::NotAccepted;
use cca_base::{Model, Refusal, Stop};
use line_machine::Out;
use std::alloc::{AllocError, Global};
use trace_text::{bare_refusal_to, refusal_line};

/// Appends the line of a refusal. The error is out of memory, and then all is as it was.
pub fn refuse_to(
    alloc: Global,
    json: bool,
    model: &Model,
    number: u64,
    refusal: &Refusal,
    out: &mut Out,
) -> Result<(), AllocError>
    ensures ok { OnOk result
        (out.new.bytes ≡ out.old.bytes ++ refusal_text json model.now number refusal.now) }
    ensures err { OnErr result (out.new ≡ out.old) }
    ensures front { IsFront out.old out.new }
{
    let text = refusal_line(alloc, model, number, refusal, json)?;
    out.push(text.as_slice())
}

/// The same by a code alone.
pub fn refuse_code_to(
    alloc: Global,
    json: bool,
    model: &Model,
    number: u64,
    code: u8,
    out: &mut Out,
) -> Result<(), AllocError>
    ensures ok { OnOk result (out.new.bytes
        ≡ out.old.bytes ++ refusal_text json model.now number (bare code)) }
    ensures err { OnErr result (out.new ≡ out.old) }
    ensures front { IsFront out.old out.new }

    // In words it takes no memory where there is room.
    ensures steady { json ≡ false → HasRoomLeft out.old REFUSAL_ROOM →
        TookNone out.old result out.new }
{
    if json {
        return refuse_to(alloc, json, model, number, &Refusal::bare(code), out);
    }
    bare_refusal_to(model, number, code, out)
}

/// The same for a line that was not taken.
pub fn refuse_stop_to(
    alloc: Global,
    json: bool,
    model: &Model,
    number: u64,
    stop: &Stop,
    out: &mut Out,
) -> Result<(), AllocError>
    ensures ok { OnOk result ((code : ℕ) × (stop_code stop.now ≡ Some code)
        × (out.new.bytes ≡ out.old.bytes ++ refusal_text json model.now number (bare code))) }
    ensures err { OnErr result (out.new ≡ out.old) }
    ensures front { IsFront out.old out.new }

    // In words a refusal takes no memory where there is room.
    ensures steady { json ≡ false → IsSome (stop_code stop.now) → HasRoomLeft out.old REFUSAL_ROOM →
        TookNone out.old result out.new }
{
    match stop.code() {
        Some(code) => refuse_code_to(alloc, json, model, number, code, out),
        None => Err(AllocError),
    }
}

/// The same for a model that is not accepted.
pub fn refuse_model_to(
    alloc: Global,
    json: bool,
    number: u64,
    stop: NotAccepted,
    out: &mut Out,
) -> Result<(), AllocError>
    ensures ok { OnOk result (Appended (SaysNotAccepted json number stop) out.old out.new) }
    ensures err { OnErr result (out.new ≡ out.old) }
    ensures front { IsFront out.old out.new }
{
    match stop {
        NotAccepted::Refused { refusal, model } => {
            refuse_to(alloc, json, &model, number, &refusal, out)
        }
        NotAccepted::Memory => Err(AllocError),
    }
}
