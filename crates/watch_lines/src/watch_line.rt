//! Lines behind a model, read one by one.

ghost use Rattle.std.specs.Prelude.{◌≡◌, ◌∷◌, ◌^◌, ◌≤◌, None, codes, length, map, IfOk, IfSome};
ghost use Rattle.std.specs.Option.{option_map};
ghost use Rattle.cca_base.specs.Prelude.{Answers};
ghost use Rattle.model_syntax.specs.Reader.{NumbersFit};
ghost use Rattle.script_reader.specs.Items.{shown_item};
ghost use Rattle.text_base.specs.Lexemes.{lexeme_of, next_is, word};
ghost use Rattle.text_base.specs.Pairs.{shown_pair};
ghost use Rattle.watch_lines.specs.Items.{Observe, only_name};
ghost use Rattle.watch_lines.specs.WatchEvents.{FitsWatch, IsEventOfItem, IsEventOfScript, IsEventOfTokens, IsEventOfWords, IsWatchEventOf};

use crate::watch_event::WatchEvent;
use cca_base::codes::{MALFORMED, NAME_UNKNOWN, REPEATED_PAIR};
use cca_base::{Name, Stop};
use indexmap::IndexMap;
use script_reader::{Context, Item, Naming, each_pair, item_of, observe_code};
use std::alloc::Global;
use text_base::{Kind, NamedPair, Token, TokenFault, name_word_at, next_is, tokens};
use trace_text::command_of;

/// What the meaning of a line depends on.
#[derive(Drop)]
pub struct WatchContext<'a> {
    /// The model with its names, and the observations that are pending. No variable is mirrored.
    pub script: Context<'a>,
    /// The places of the model's commands.
    pub places: &'a IndexMap<Name, usize>,
    /// Whether a command is pending.
    pub sent: bool,
}

/// The name, where nothing follows.
#[tactic(auto, unfolding(crate::specs::Items::only_name))]
fn only_name<'a>(tokens: &[Token<'a>]) -> Option<&'a [u8]>
    ensures { option_map (λ name. name.now) result ≡ only_name (map lexeme_of tokens.now) }
{
    let (name, rest) = name_word_at(tokens)?;
    if rest.is_empty() { Some(name) } else { None }
}

/// A command that was sent, by what stands behind the word sent.
fn sent_event(context: &WatchContext, rest: &[Token]) -> Result<WatchEvent, Stop>
    requires fit { NumbersFit context.now.places.now context.now.script.model.commands }
    requires few { length context.now.script.model.commands ≤ 2 ^ 16 }
    ensures { Answers result
        (IsEventOfWords context.now.script.model context.now.script.pending.now
        context.now.sent (word (codes "sent") ∷ map lexeme_of rest.now)) }
{
    let Some(name) = only_name(rest) else {
        return Err(Stop::refused(MALFORMED));
    };
    let Some(command) = command_of(context.script.model.model(), context.places, name) else {
        return Err(Stop::refused(NAME_UNKNOWN));
    };
    if context.sent {
        return Err(Stop::refused(REPEATED_PAIR));
    }
    Ok(WatchEvent::Sent(command))
}

/// Observations of these pairs.
fn observe_event(
    alloc: Global,
    context: &WatchContext,
    named: &[NamedPair],
) -> Result<WatchEvent, Stop>
    requires unmirrored { context.now.script.mirrored ≡ 0 }
    ensures { Answers result
        (IsEventOfItem context.now.script.model context.now.script.pending.now
        context.now.sent (Observe (map shown_pair named.now))) }
{
    let script = &context.script;
    let Some(pairs) = each_pair(alloc, &script.model, Naming::Values, named)? else {
        return Err(Stop::refused(NAME_UNKNOWN));
    };
    match observe_code(script, pairs.as_slice()) {
        Some(code) => Err(Stop::refused(code)),
        None => Ok(WatchEvent::Observe(pairs)),
    }
}

/// What an item of a script says here.
fn item_event(alloc: Global, context: &WatchContext, item: &Item) -> Result<WatchEvent, Stop>
    requires unmirrored { context.now.script.mirrored ≡ 0 }
    ensures { Answers result
        (IsEventOfScript context.now.script.model context.now.script.pending.now
        context.now.sent (shown_item item.now)) }
{
    match item {
        Item::Observe(named) => observe_event(alloc, context, named),
        Item::Reset => Ok(WatchEvent::Reset),
        Item::Tick => Ok(WatchEvent::Tick),
        Item::Goal(_) | Item::Clear | Item::Fault(_) | Item::Mirror(_) => {
            Err(Stop::refused(MALFORMED))
        }
    }
}

/// What a line says that doesn't begin with the word sent.
fn script_event(alloc: Global, context: &WatchContext, tokens: &[Token]) -> Result<WatchEvent, Stop>
    requires unmirrored { context.now.script.mirrored ≡ 0 }
    requires other { next_is (word (codes "sent")) (map lexeme_of tokens.now) ≡ None }
    ensures { Answers result
        (IsEventOfWords context.now.script.model context.now.script.pending.now
        context.now.sent (map lexeme_of tokens.now)) }
{
    match item_of(alloc, tokens)? {
        Some(item) => item_event(alloc, context, &item),
        None => Err(Stop::refused(MALFORMED)),
    }
}

/// What the tokens of a line say.
fn tokens_event(
    alloc: Global,
    context: &WatchContext,
    tokens: &[Token],
) -> Result<Option<WatchEvent>, Stop>
    requires unmirrored { context.now.script.mirrored ≡ 0 }
    requires fit { NumbersFit context.now.places.now context.now.script.model.commands }
    requires few { length context.now.script.model.commands ≤ 2 ^ 16 }
    ensures { Answers result
        (IsEventOfTokens context.now.script.model context.now.script.pending.now
        context.now.sent (map lexeme_of tokens.now)) }
{
    if tokens.is_empty() {
        return Ok(None);
    }
    match next_is(Kind::Word, b"sent", tokens) {
        Some(rest) => Ok(Some(sent_event(context, rest)?)),
        None => Ok(Some(script_event(alloc, context, tokens)?)),
    }
}

/// Reads one line behind a model, without its LF: what it says with what is pending, or None for a line without tokens. The refusal has
/// the least code that applies, and no detail.
#[tactic(auto, using(crate::proofs::EventsFit::answer_fits))]
pub fn read_watch_line(
    alloc: Global,
    line: &[u8],
    context: &WatchContext,
) -> Result<Option<WatchEvent>, Stop>
    requires unmirrored { context.now.script.mirrored ≡ 0 }
    requires fit { NumbersFit context.now.places.now context.now.script.model.commands }
    requires few { length context.now.script.model.commands ≤ 2 ^ 16 }
    ensures answer { Answers result
        (IsWatchEventOf context.now.script.model context.now.script.pending.now
        context.now.sent line.now) }
    ensures fits { IfOk result (λ event. IfSome event
        (FitsWatch context.now.script.model context.now.script.pending.now
        context.now.sent)) }
{
    match tokens(alloc, line) {
        Ok(tokens) => tokens_event(alloc, context, tokens.as_slice()),
        Err(TokenFault::Bad(_)) => Err(Stop::refused(MALFORMED)),
        Err(TokenFault::Memory) => Err(Stop::Memory),
    }
}
