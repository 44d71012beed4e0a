//! Reports and refusals as lines of JSON.

ghost use Rattle.std.specs.Prelude.{◌≡◌, ◌∷◌, ◌++◌, [], codes, drop, false, IfOk, OnOk};
ghost use Rattle.serde_json.specs.Data.{number, unsigned, string, put};
ghost use Rattle.serde_json.specs.View.{view, members_view};
ghost use Rattle.serde_json.specs.Written.{has_float};
ghost use Rattle.trace_text.specs.Json.{with_members, reply_members, shown_members, report_object, bare_detail, refusal_object, json_line, report_json, refusal_json};

use crate::members::{modes_value, put_number, put_text, put_word};
use crate::names::{component_bytes, mode_bytes};
use crate::refusal::{code_name, push_detail};
use byte_buffer::Out;
use cca_base::{List, Model, Refusal, Reply, Shown, TickReport};
use model_syntax::name_at;
use serde_json::{Map, Value};
use std::alloc::{AllocError, Global};

/// What a reply says, by the names of the model.
#[tactic(auto, using(crate::proofs::AsciiNames::command_ascii, crate::proofs::AsciiNames::model_component_ascii, crate::proofs::AsciiNames::model_mode_ascii))]
fn put_reply(
    map: &mut Map<String, Value>,
    alloc: Global,
    model: &Model,
    reply: Reply,
) -> Result<(), AllocError>
    ensures { OnOk result (members_view map.new.entries
        ≡ with_members (members_view map.old.entries) (reply_members model.now reply)) }
{
    match reply {
        Reply::Idle => put_word(map, alloc, "answer", "idle")?,
        Reply::Achieved => put_word(map, alloc, "answer", "achieved")?,
        Reply::Send(command) => {
            put_word(map, alloc, "answer", "send")?;
            let name = name_at(model.commands().as_slice(), command as usize);
            put_text(map, alloc, "command", name)?;
        }
        Reply::Unreachable(c, mode) => {
            let components = model.components().as_slice();
            put_word(map, alloc, "answer", "unreachable")?;
            put_text(
                map,
                alloc,
                "component",
                component_bytes(components, c as usize),
            )?;
            put_text(map, alloc, "mode", mode_bytes(components, c as usize, mode))?;
        }
    }
    Ok(())
}

/// What a tick shows.
fn put_shown(
    map: &mut Map<String, Value>,
    alloc: Global,
    model: &Model,
    shown: &Shown,
) -> Result<(), AllocError>
    ensures { OnOk result (members_view map.new.entries
        ≡ with_members (members_view map.old.entries) (shown_members model.now shown.now)) }
{
    match shown {
        Shown::Estimated { cost, state, reply } => {
            put_reply(map, alloc, model, *reply)?;
            put_number(map, alloc, "cost", *cost)?;
            let components = model.components().as_slice();
            let modes = modes_value(alloc, components, state.modes.as_slice())?;
            serde_json::put(map, alloc, "modes", modes)?;
        }
        Shown::Unexplained => put_word(map, alloc, "answer", "unexplained")?,
        Shown::Holding => put_word(map, alloc, "answer", "holding")?,
    }
    Ok(())
}

/// A report as an object.
#[tactic(auto, unfolding(crate::specs::Json::report_object))]
fn report_value(alloc: Global, model: &Model, report: &TickReport) -> Result<Value, AllocError>
    ensures { IfOk result (λ v. view v ≡ report_object model.now report.now) }
{
    let mut map = Map::new(alloc);
    put_shown(&mut map, alloc, model, &report.shown)?;
    put_number(&mut map, alloc, "tick", report.tick)?;
    Ok(Value::Object(map))
}

/// All but the first byte.
fn behind_first(bytes: &[u8]) -> &[u8]
    ensures { result.now ≡ drop 1 bytes.now }
{
    if bytes.is_empty() { bytes } else { &bytes[1..] }
}

/// What a refusal names besides its code, without the space before it.
#[tactic(auto, unfolding(crate::specs::Json::bare_detail), using(crate::proofs::AsciiNames::bare_detail_ascii))]
fn put_detail(
    map: &mut Map<String, Value>,
    alloc: Global,
    model: &Model,
    refusal: &Refusal,
) -> Result<(), AllocError>
    ensures { OnOk result (members_view map.new.entries
        ≡ put (codes "detail") (string (bare_detail model.now refusal.now)) (members_view map.old.entries)) }
{
    let _components = model.components();
    let mut detail = Out::new(alloc);
    push_detail(&mut detail, model, &refusal.detail)?;
    put_text(map, alloc, "detail", behind_first(detail.as_slice()))
}

/// A refusal as an object.
#[tactic(auto, unfolding(crate::specs::Json::refusal_object))]
fn refusal_value(
    alloc: Global,
    model: &Model,
    line: u64,
    refusal: &Refusal,
) -> Result<Value, AllocError>
    ensures { IfOk result (λ v. view v ≡ refusal_object model.now line refusal.now) }
{
    let mut map = Map::new(alloc);
    put_number(&mut map, alloc, "code", u64::from(refusal.code))?;
    put_detail(&mut map, alloc, model, refusal)?;
    put_number(&mut map, alloc, "line", line)?;
    put_word(&mut map, alloc, "refused", code_name(refusal.code))?;
    Ok(Value::Object(map))
}

/// The line of a value without floats.
#[tactic(auto, unfolding(crate::specs::Json::json_line))]
fn json_line(alloc: Global, value: &Value) -> Result<List<u8>, AllocError>
    requires { has_float (view value.now) ≡ false }
    ensures { IfOk result (λ text. text ≡ json_line (view value.now)) }
{
    let mut out = value.to_vec(alloc)?;
    out.push(b'\n')?;
    Ok(List::of(out))
}

/// The line of a tick's report as JSON, with its LF, by the model's names. The error is out of memory.
#[tactic(auto, using(crate::proofs::NoFloats::no_float_in_report))]
pub fn json_of(alloc: Global, model: &Model, report: &TickReport) -> Result<List<u8>, AllocError>
    ensures { IfOk result (λ text. text ≡ report_json model.now report.now) }
{
    let value = report_value(alloc, model, report)?;
    json_line(alloc, &value)
}

/// The line of a refusal as JSON, with its LF. The error is out of memory.
#[tactic(auto, using(crate::proofs::NoFloats::no_float_in_refusal))]
pub fn refusal_json(
    alloc: Global,
    model: &Model,
    line: u64,
    refusal: &Refusal,
) -> Result<List<u8>, AllocError>
    ensures { IfOk result (λ text. text ≡ refusal_json model.now line refusal.now) }
{
    let value = refusal_value(alloc, model, line, refusal)?;
    json_line(alloc, &value)
}
