//! The line of a tick.

ghost use Rattle.std.specs.Prelude.{◌≡◌, ◌++◌, ◌+◌, ◌≤◌, ◌∷◌, [], codes, length, IfOk, IsOk, OnOk};
ghost use Rattle.std.specs.Fmt.{decimal};
ghost use Rattle.byte_buffer.specs.Outs.{HasRoomLeft, Pushes};
ghost use Rattle.trace_text.specs.LineWords.{mode_words, reply_words, shown_words};
ghost use Rattle.trace_text.specs.ReportRefs.{most_bytes, report_read, shown_read};
ghost use Rattle.trace_text.specs.Reports.{report_line};
ghost use Rattle.trace_text.specs.Words.{behind_spaces};

use crate::names::{push_choice_word, push_field, push_name, push_pair_at};
use crate::report_ref::{ReportRef, ShownRef};
use byte_buffer::Out;
use cca_base::{Component, List, Model, Reply, TickReport};
use std::alloc::{AllocError, Global};

/// Each component with its mode, each behind a space.
pub fn push_modes(out: &mut Out, components: &[Component], modes: &[u8]) -> Result<(), AllocError>
    ensures { Pushes (behind_spaces (mode_words components.now modes.now)) out.old result out.new }
{
    for (i, component) in components.iter().enumerate() {
        let Some(mode) = modes.get(i) else {
            return Ok(());
        };
        let names = component.modes.as_slice();
        push_choice_word(out, component.name.bytes(), names, *mode)?;
    }
    Ok(())
}

/// What an estimate costs, and each component with its mode.
pub fn push_estimate(
    out: &mut Out,
    components: &[Component],
    cost: u64,
    modes: &[u8],
) -> Result<(), AllocError>
    ensures { Pushes (behind_spaces (codes "cost" ∷ decimal cost ∷ codes "modes"
        ∷ mode_words components.now modes.now)) out.old result out.new }
{
    push_field(out, b" cost ", cost)?;
    out.push(b" modes")?;
    push_modes(out, components, modes)
}

/// The words of a reply, each behind a space.
fn push_reply(out: &mut Out, model: &Model, reply: Reply) -> Result<(), AllocError>
    ensures { Pushes (behind_spaces (reply_words model.now reply)) out.old result out.new }
{
    match reply {
        Reply::Idle => out.push(b" idle"),
        Reply::Achieved => out.push(b" achieved"),
        Reply::Send(command) => {
            out.push(b" send ")?;
            push_name(out, model.commands().as_slice(), command as usize)
        }
        Reply::Unreachable(c, mode) => {
            out.push(b" unreachable ")?;
            push_pair_at(out, model.components().as_slice(), c as usize, mode)
        }
    }
}

/// What a tick shows, behind its number: its words, each behind a space.
fn push_shown(out: &mut Out, model: &Model, shown: ShownRef) -> Result<(), AllocError>
    ensures { Pushes (behind_spaces (shown_words model.now (shown_read shown.entry))) out.old result
        out.new }
{
    match shown {
        ShownRef::Estimated { cost, state, reply } => {
            let components = model.components().as_slice();
            push_estimate(out, components, cost, state.modes.as_slice())?;
            push_reply(out, model, reply)
        }
        ShownRef::Unexplained => out.push(b" unexplained"),
        ShownRef::Holding => out.push(b" holding"),
    }
}

/// How much room is enough for the line of any report of the model: a name has at most 32 bytes, and a number at most 20 digits.
pub fn report_room(model: &Model) -> usize
    ensures { result ≡ most_bytes model.now }
{
    66 * model.components().len() + 136
}

/// Appends the line of a report.
#[tactic(auto, unfolding(crate::specs::Reports::report_line))]
fn push_report(out: &mut Out, model: &Model, report: ReportRef) -> Result<(), AllocError>
    ensures { Pushes (report_line model.now (report_read report.entry)) out.old result out.new }
{
    push_field(out, b"tick ", report.tick)?;
    push_shown(out, model, report.shown)?;
    out.push_byte(b'\n')
}

/// Appends the line of a tick's report, with its LF, by the model's names. It takes memory only where the line doesn't fit. The
/// error is out of memory.
#[tactic(auto, using(crate::proofs::ReportRoom::report_fits, crate::proofs::ReportRoom::pushed_fits))]
pub fn report_to(model: &Model, report: ReportRef, out: &mut Out) -> Result<(), AllocError>
    ensures pushes { Pushes (report_line model.now (report_read report.entry)) out.old result out.new }

    // Where there is room for any report of the model it can't fail, and takes no memory.
    ensures succeeds { HasRoomLeft out.old (most_bytes model.now) → IsOk result }
    ensures stays { HasRoomLeft out.old (most_bytes model.now) →
        out.new.capacity ≡ out.old.capacity }
    ensures fits { OnOk result
        (length out.new.bytes ≤ length out.old.bytes + most_bytes model.now) }
{
    let _components = model.components();
    report.reads_small_numbers();
    push_report(out, model, report)
}

/// The line of a tick's report, with its LF, by the model's names. The error is out of memory.
pub fn line_of(alloc: Global, model: &Model, report: &TickReport) -> Result<List<u8>, AllocError>
    ensures { IfOk result (λ text. text ≡ report_line model.now report.now) }
{
    let mut out = Out::new(alloc);
    report_to(model, ReportRef::of(report), &mut out)?;
    Ok(List::of(out.into_vec()))
}
