//! The report of a tick, read from its line's words.

ghost use Rattle.std.specs.Prelude.{◌≡◌, [], ◌∷◌, codes, map, IfOk};
ghost use Rattle.std.specs.Fmt.{decimal};
ghost use Rattle.cca_base.specs.Prelude.{HasMode, PlantModel};
ghost use Rattle.trace_text.specs.LineWords.{IsReadFrom, reply_words, report_words, shown_words};
ghost use Rattle.trace_text.specs.Names.{pair_text_at};
ghost use Rattle.trace_text.specs.TraceLines.{FitsReply, FitsReport, FitsShown};

use crate::commands::read_command;
use crate::read_parts::{read_choice, read_count, read_modes};
use cca_base::{Model, Reply, Shown, State, TickReport};
use std::alloc::{AllocError, Global};

/// The component and its mode that the word names.
fn read_pair(model: &Model, word: &[u8]) -> Option<(u16, u8)>
    ensures { IsReadFrom word.now (λ p. HasMode model.now p.0 p.1) (λ p.
        pair_text_at model.now.components p.0 p.1) result }
{
    for (c, component) in model.components().as_slice().iter().enumerate() {
        let names = component.modes.as_slice();
        if let Some(mode) = read_choice(component.name.bytes(), names, word) {
            return Some((c as u16, mode));
        }
    }
    None
}

/// The reply that is one word.
fn read_bare_reply(word: &[u8]) -> Option<Reply>
    ensures { (m : PlantModel) → IsReadFrom (word.now ∷ []) (FitsReply m) (reply_words m) result }
{
    if word == b"idle".as_slice() {
        Some(Reply::Idle)
    } else if word == b"achieved".as_slice() {
        Some(Reply::Achieved)
    } else {
        None
    }
}

/// The reply that names a command or a pair.
fn read_named_reply(model: &Model, kind: &[u8], word: &[u8]) -> Option<Reply>
    ensures { IsReadFrom (kind.now ∷ word.now ∷ []) (FitsReply model.now) (reply_words model.now)
        result }
{
    if kind == b"send".as_slice() {
        match read_command(model, word) {
            Some(command) => Some(Reply::Send(command)),
            None => None,
        }
    } else if kind == b"unreachable".as_slice() {
        match read_pair(model, word) {
            Some((c, mode)) => Some(Reply::Unreachable(c, mode)),
            None => None,
        }
    } else {
        None
    }
}

/// The reply of the words.
fn read_reply(model: &Model, words: &[&[u8]]) -> Option<Reply>
    ensures { IsReadFrom (map (λ w.
        w.now) words.now) (FitsReply model.now) (reply_words model.now) result }
{
    match words {
        [word] => read_bare_reply(word),
        [kind, word] => read_named_reply(model, kind, word),
        _ => None,
    }
}

/// The estimate and the reply of the words behind the cost.
fn read_estimate(
    alloc: Global,
    model: &Model,
    cost: u64,
    words: &[&[u8]],
) -> Result<Option<Shown>, AllocError>
    ensures { IfOk result (IsReadFrom (codes "cost" ∷ decimal cost ∷ codes "modes" ∷ map (λ w. w.now) words.now) (FitsShown model.now) (shown_words model.now)) }
{
    let components = model.components().as_slice();
    if words.len() < components.len() {
        return Ok(None);
    }
    let (pairs, rest) = words.split_at(components.len());
    let Some(reply) = read_reply(model, rest) else {
        return Ok(None);
    };
    match read_modes(alloc, model, pairs)? {
        Some(modes) => {
            let state = State { modes };
            Ok(Some(Shown::Estimated { cost, state, reply }))
        }
        None => Ok(None),
    }
}

/// What is shown by one word.
fn read_bare_shown(word: &[u8]) -> Option<Shown>
    ensures { (m : PlantModel) → IsReadFrom (word.now ∷ []) (FitsShown m) (shown_words m) result }
{
    if word == b"unexplained".as_slice() {
        Some(Shown::Unexplained)
    } else if word == b"holding".as_slice() {
        Some(Shown::Holding)
    } else {
        None
    }
}

/// What is shown by a cost, modes and a reply.
fn read_whole_shown(
    alloc: Global,
    model: &Model,
    head: &[u8],
    cost: &[u8],
    next: &[u8],
    words: &[&[u8]],
) -> Result<Option<Shown>, AllocError>
    ensures { IfOk result (IsReadFrom (head.now ∷ cost.now ∷ next.now ∷ map (λ w.
        w.now) words.now) (FitsShown model.now) (shown_words model.now)) }
{
    if head != b"cost".as_slice() || next != b"modes".as_slice() {
        return Ok(None);
    }
    match read_count(cost) {
        Some(cost) => read_estimate(alloc, model, cost, words),
        None => Ok(None),
    }
}

/// What the words show.
fn read_shown(alloc: Global, model: &Model, words: &[&[u8]]) -> Result<Option<Shown>, AllocError>
    ensures { IfOk result (IsReadFrom (map (λ w.
        w.now) words.now) (FitsShown model.now) (shown_words model.now)) }
{
    match words {
        [word] => Ok(read_bare_shown(word)),
        [head, cost, next, rest @ ..] => { read_whole_shown(alloc, model, head, cost, next, rest) }
        _ => Ok(None),
    }
}

/// The report of the words.
pub fn read_report(
    alloc: Global,
    model: &Model,
    words: &[&[u8]],
) -> Result<Option<TickReport>, AllocError>
    ensures { IfOk result (IsReadFrom (map (λ w.
        w.now) words.now) (FitsReport model.now) (report_words model.now)) }
{
    let [number, rest @ ..] = words else {
        return Ok(None);
    };
    let Some(tick) = read_count(number) else {
        return Ok(None);
    };
    match read_shown(alloc, model, rest)? {
        Some(shown) => Ok(Some(TickReport { tick, shown })),
        None => Ok(None),
    }
}
