//! What an event line says, by words in place of names.

ghost use Rattle.std.specs.Prelude.{◌≡◌, Some, map, IfOk};
ghost use Rattle.std.specs.Option.{option_map};
ghost use Rattle.text_base.specs.Lexemes.{lexeme_of};
ghost use Rattle.text_base.specs.Lists.{ended};
ghost use Rattle.text_base.specs.Pairs.{shown_pair};
ghost use Rattle.script_reader.specs.Items.{only_pairs, fault_at, mirror_at, item_of, shown_item};

use std::alloc::{AllocError, Global};
use text_base::{Kind, NamedPair, Token, is_lexeme, name_word_at, pair_at, pairs_at};

/// What an event line says, by words in place of names.
#[derive(Debug, Drop)]
pub enum Item<'a> {
    Goal(Vec<NamedPair<'a>>),
    Clear,
    Observe(Vec<NamedPair<'a>>),
    Fault(NamedPair<'a>),
    Mirror(&'a [u8]),
    Reset,
    Tick,
}

/// The item, where nothing follows.
fn ended<'a>(item: Item<'a>, tokens: &[Token]) -> Option<Item<'a>>
    ensures { option_map shown_item result
        ≡ ended (shown_item item.entry) (map lexeme_of tokens.now) }
{
    if tokens.is_empty() { Some(item) } else { None }
}

/// The pairs, where nothing follows.
#[tactic(auto, unfolding(crate::specs::Items::only_pairs))]
pub fn only_pairs<'a>(
    alloc: Global,
    tokens: &[Token<'a>],
) -> Result<Option<Vec<NamedPair<'a>>>, AllocError>
    ensures { IfOk result (λ read.
        option_map (λ pairs. map shown_pair pairs.items) read
        ≡ only_pairs (map lexeme_of tokens.now)) }
{
    let Some((pairs, rest)) = pairs_at(alloc, tokens)? else {
        return Ok(None);
    };
    if rest.is_empty() {
        Ok(Some(pairs))
    } else {
        Ok(None)
    }
}

#[tactic(auto, unfolding(crate::specs::Items::fault_at))]
fn fault_at<'a>(tokens: &[Token<'a>]) -> Option<Item<'a>>
    ensures { option_map shown_item result ≡ fault_at (map lexeme_of tokens.now) }
{
    let (pair, rest) = pair_at(tokens)?;
    ended(Item::Fault(pair), rest)
}

#[tactic(auto, unfolding(crate::specs::Items::mirror_at))]
fn mirror_at<'a>(tokens: &[Token<'a>]) -> Option<Item<'a>>
    ensures { option_map shown_item result ≡ mirror_at (map lexeme_of tokens.now) }
{
    let (name, rest) = name_word_at(tokens)?;
    ended(Item::Mirror(name), rest)
}

/// What a line with these tokens says, if it has a form.
pub fn item_of<'a>(alloc: Global, tokens: &[Token<'a>]) -> Result<Option<Item<'a>>, AllocError>
    ensures { IfOk result (λ read.
        option_map shown_item read ≡ item_of (map lexeme_of tokens.now)) }
{
    let [first, rest @ ..] = tokens else {
        return Ok(None);
    };
    if is_lexeme(first, Kind::Word, b"goal") {
        Ok(only_pairs(alloc, rest)?.map(Item::Goal))
    } else if is_lexeme(first, Kind::Word, b"clear") {
        Ok(ended(Item::Clear, rest))
    } else if is_lexeme(first, Kind::Word, b"observe") {
        Ok(only_pairs(alloc, rest)?.map(Item::Observe))
    } else if is_lexeme(first, Kind::Word, b"fault") {
        Ok(fault_at(rest))
    } else if is_lexeme(first, Kind::Word, b"mirror") {
        Ok(mirror_at(rest))
    } else if is_lexeme(first, Kind::Word, b"reset") {
        Ok(ended(Item::Reset, rest))
    } else if is_lexeme(first, Kind::Word, b"tick") {
        Ok(ended(Item::Tick, rest))
    } else {
        Ok(None)
    }
}
