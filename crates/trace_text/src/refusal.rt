//! The line of a refusal.

ghost use Rattle.std.specs.Prelude.{◌≡◌, ◌++◌, ◌∷◌, [], codes, IfOk, IsOk, OnErr, OnOk};
ghost use Rattle.std.specs.Fmt.{decimal};
ghost use Rattle.cca_base.specs.Prelude.{bare};
ghost use Rattle.byte_buffer.specs.Outs.{HasRoomLeft, Pushes};
ghost use Rattle.trace_text.specs.declared.refusal.TheConstants.{REFUSAL_ROOM};
ghost use Rattle.trace_text.specs.Json.{refusal_text};
ghost use Rattle.trace_text.specs.Refusals.{code_name, detail_text, refusal_line};

use crate::json::refusal_json;
use crate::names::{push_components, push_field, push_move_at, push_pairs, push_word};
use byte_buffer::Out;
use cca_base::{Detail, List, Model, Refusal, codes};
use std::alloc::{AllocError, Global};

/// How much room is enough for the line in words of a refusal that names nothing besides its code.
pub const REFUSAL_ROOM: usize = 80;

/// The name of a code.
pub fn code_name(code: u8) -> &'static str
    ensures { result.now ≡ code_name code }
{
    match code {
        codes::MALFORMED => "malformed",
        codes::NAME_UNKNOWN => "name_unknown",
        codes::NAME_REPEATED => "name_repeated",
        codes::LIMIT => "limit",
        codes::AMBIGUOUS => "ambiguous",
        codes::INTO_BROKEN => "into_broken",
        codes::UNMARKED_EXIT => "unmarked_exit",
        codes::TWO_MENDS => "two_mends",
        codes::CLASH => "clash",
        codes::WAYS => "ways",
        codes::CYCLE => "cycle",
        codes::DEEP => "deep",
        codes::NOT_SENSED => "not_sensed",
        codes::BROKEN_GOAL => "broken_goal",
        codes::REPEATED_PAIR => "repeated_pair",
        codes::MIRRORED => "mirrored",
        codes::ENDS_EARLY => "ends_early",
        codes::LONG_LINE => "long_line",
        codes::TOO_MANY_LINES => "too_many_lines",
        codes::REPAIR_CYCLE => "repair_cycle",
        codes::MANY => "many",
        codes::UNMATCHED => "unmatched",
        _ => "",
    }
}

/// What a refusal names besides its code, behind the code's name.
pub fn push_detail(out: &mut Out, model: &Model, detail: &Detail) -> Result<(), AllocError>
    ensures { Pushes (detail_text model.now detail.now) out.old result out.new }
{
    let components = model.components().as_slice();
    match detail {
        Detail::Nothing => Ok(()),
        Detail::Pairs(cube) => push_pairs(out, components, cube.as_slice()),
        Detail::Components(list) => push_components(out, components, list.as_slice()),
        Detail::OfMove(k) => push_move_at(out, model, model.moves().as_slice(), *k as usize),
    }
}

/// A code, and its name behind a space.
fn push_code(out: &mut Out, code: u8) -> Result<(), AllocError>
    ensures { Pushes (32 ∷ decimal code ++ 32 ∷ code_name code) out.old result out.new }
{
    push_field(out, b" ", u64::from(code))?;
    push_word(out, code_name(code).as_bytes())
}

/// Appends the line of a refusal in words. The error is out of memory.
#[tactic(auto, unfolding(crate::specs::Refusals::refusal_line))]
fn refusal_to(model: &Model, line: u64, refusal: &Refusal, out: &mut Out) -> Result<(), AllocError>
    ensures { Pushes (refusal_line model.now line refusal.now) out.old result out.new }
{
    push_field(out, b"refused ", line)?;
    push_code(out, refusal.code)?;
    push_detail(out, model, &refusal.detail)?;
    out.push_byte(b'\n')
}

/// Appends the line in words of a refusal that names nothing besides its code. The error is out of memory.
fn push_bare(model: &Model, line: u64, code: u8, out: &mut Out) -> Result<(), AllocError>
    ensures { Pushes (refusal_line model.now line (bare code)) out.old result out.new }
{
    refusal_to(model, line, &Refusal::bare(code), out)
}

/// Appends the line in words of a refusal that names nothing besides its code, and takes memory only where there is no room. The
/// error is out of memory, and then all is as it was.
#[tactic(auto, using(crate::proofs::RefusalRoom::refusal_fits))]
pub fn bare_refusal_to(model: &Model, line: u64, code: u8, out: &mut Out) -> Result<(), AllocError>
    ensures ok { OnOk result
        (out.new.bytes ≡ out.old.bytes ++ refusal_line model.now line (bare code)) }
    ensures err { OnErr result (out.new ≡ out.old) }
    ensures succeeds { HasRoomLeft out.old REFUSAL_ROOM → IsOk result }
    ensures stays { HasRoomLeft out.old REFUSAL_ROOM → out.new.capacity ≡ out.old.capacity }
{
    out.reserve(REFUSAL_ROOM)?;
    let Ok(()) = push_bare(model, line, code, out) else {
        unreachable!()
    };
    Ok(())
}

/// The line of a refusal in words.
fn refusal_words(
    alloc: Global,
    model: &Model,
    line: u64,
    refusal: &Refusal,
) -> Result<List<u8>, AllocError>
    ensures { IfOk result (λ text. text ≡ refusal_line model.now line refusal.now) }
{
    let mut out = Out::new(alloc);
    refusal_to(model, line, refusal, &mut out)?;
    Ok(List::of(out.into_vec()))
}

/// The line of a refusal at a line of the input, with its LF, by the names of the model that was read so far: a line of
/// JSON where that is asked for, and words otherwise. The error is out of memory.
pub fn refusal_line(
    alloc: Global,
    model: &Model,
    line: u64,
    refusal: &Refusal,
    json: bool,
) -> Result<List<u8>, AllocError>
    ensures { IfOk result (λ text. text ≡ refusal_text json model.now line refusal.now) }
{
    if json {
        refusal_json(alloc, model, line, refusal)
    } else {
        refusal_words(alloc, model, line, refusal)
    }
}
