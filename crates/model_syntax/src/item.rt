//! What a line says, by words in place of names.

ghost use Rattle.std.specs.Prelude.{◌≡◌, List, Some, map, IfOk};
ghost use Rattle.std.specs.Option.{option_map};
ghost use Rattle.text_base.specs.Lexemes.{Lexeme, lexeme_of};
ghost use Rattle.model_syntax.specs.Items.{Item as SpelledItem, IsSpelled, line_spelled, number_at, ends_at, header_of, header_at, named_list_at, component_at, sensed_at, variable_at, move_at, failure_at, item_of, shown_ends, shown_item};
ghost use Rattle.text_base.specs.Lists.{ended};

use std::alloc::{AllocError, Global};
use text_base::{Kind, Token, is_lexeme, name_word_at, names_at, next_is};

/// A component and two of its modes, by their words.
#[derive(Clone, Copy)]
pub struct Ends<'a> {
    pub name: &'a [u8],
    pub source: &'a [u8],
    pub target: &'a [u8],
}

/// What a line says, by words in place of names.
#[derive(Drop)]
pub enum Item<'a, 'b> {
    /// The line of the version, and whether it is the second.
    Header(bool),
    Component {
        name: &'a [u8],
        modes: Vec<&'a [u8]>,
        start: &'a [u8],
    },
    Variable {
        name: &'a [u8],
        values: Vec<&'a [u8]>,
        sensed: bool,
    },
    /// All that stands behind `rule`.
    Rule(&'b [Token<'a>]),
    Move {
        repair: bool,
        ends: Ends<'a>,
        command: &'a [u8],
        /// All that stands behind `when`.
        guard: &'b [Token<'a>],
    },
    Failure {
        ends: Ends<'a>,
        /// The digits of the cost.
        cost: &'a [u8],
    },
    Script,
}

/// The item, where nothing follows.
fn ended<'a, 'b>(item: Item<'a, 'b>, tokens: &[Token]) -> Option<Item<'a, 'b>>
    ensures { option_map shown_item result
        ≡ ended (shown_item item.entry) (map lexeme_of tokens.now) }
{
    if tokens.is_empty() { Some(item) } else { None }
}

/// The digits at the front of the tokens, and what stands behind them.
pub fn number_at<'a, 'b>(tokens: &'b [Token<'a>]) -> Option<(&'a [u8], &'b [Token<'a>])>
    ensures { option_map (λ r. (r.0.now, map lexeme_of r.1.now)) result
        ≡ number_at (map lexeme_of tokens.now) }
{
    match tokens {
        [first, rest @ ..] => {
            match first.kind {
                Kind::Number => Some((first.text, rest)),
                Kind::Word | Kind::Symbol => None,
            }
        }
        [] => None,
    }
}

/// The ends of a move at the front of the tokens, and what stands behind them.
#[tactic(auto, unfolding(crate::specs::Items::ends_at))]
fn ends_at<'a, 'b>(tokens: &'b [Token<'a>]) -> Option<(Ends<'a>, &'b [Token<'a>])>
    ensures { option_map (λ r. (shown_ends r.0, map lexeme_of r.1.now)) result
        ≡ ends_at (map lexeme_of tokens.now) }
{
    let (name, rest) = name_word_at(tokens)?;
    let (source, rest) = name_word_at(rest)?;
    let rest = next_is(Kind::Symbol, b"->", rest)?;
    let (target, rest) = name_word_at(rest)?;
    let ends = Ends {
        name,
        source,
        target,
    };
    Some((ends, rest))
}

/// The line of a version, where the number of it stands alone.
fn header_of<'a, 'b>(second: bool, digits: &[u8], tokens: &'b [Token<'a>]) -> Option<Item<'a, 'b>>
    ensures { option_map shown_item result
        ≡ header_of second digits.now (map lexeme_of tokens.now) }
{
    let rest = next_is(Kind::Number, digits, tokens)?;
    ended(Item::Header(second), rest)
}

#[tactic(auto, unfolding(crate::specs::Items::header_at))]
fn header_at<'a, 'b>(tokens: &'b [Token<'a>]) -> Option<Item<'a, 'b>>
    ensures { option_map shown_item result ≡ header_at (map lexeme_of tokens.now) }
{
    match header_of(false, b"1", tokens) {
        Some(item) => Some(item),
        None => header_of(true, b"2", tokens),
    }
}

/// A name, an equals sign and a list of names, and what stands behind.
#[tactic(auto, unfolding(crate::specs::Items::named_list_at))]
fn named_list_at<'a, 'b>(
    alloc: Global,
    tokens: &'b [Token<'a>],
) -> Result<Option<(&'a [u8], Vec<&'a [u8]>, &'b [Token<'a>])>, AllocError>
    ensures { IfOk result (λ read. option_map (λ r.
        (r.0.now, map (λ w. w.now) r.1.items, map lexeme_of r.2.now)) read
        ≡ named_list_at (map lexeme_of tokens.now)) }
{
    let Some((name, rest)) = name_word_at(tokens) else {
        return Ok(None);
    };
    let Some(rest) = next_is(Kind::Symbol, b"=", rest) else {
        return Ok(None);
    };
    match names_at(alloc, rest)? {
        Some((names, rest)) => Ok(Some((name, names, rest))),
        None => Ok(None),
    }
}

#[tactic(auto, unfolding(crate::specs::Items::component_at))]
fn component_at<'a, 'b>(
    alloc: Global,
    tokens: &'b [Token<'a>],
) -> Result<Option<Item<'a, 'b>>, AllocError>
    ensures { IfOk result (λ read.
        option_map shown_item read ≡ component_at (map lexeme_of tokens.now)) }
{
    let Some((name, modes, rest)) = named_list_at(alloc, tokens)? else {
        return Ok(None);
    };
    let Some(rest) = next_is(Kind::Word, b"start", rest) else {
        return Ok(None);
    };
    let Some((start, rest)) = name_word_at(rest) else {
        return Ok(None);
    };
    Ok(ended(Item::Component { name, modes, start }, rest))
}

/// The variable, where nothing but `sensed` follows.
fn sensed_at<'a, 'b>(
    name: &'a [u8],
    values: Vec<&'a [u8]>,
    tokens: &[Token],
) -> Option<Item<'a, 'b>>
    ensures { option_map shown_item result
        ≡ sensed_at name.now (map (λ w. w.now) values.entry.items) (map lexeme_of tokens.now) }
{
    match tokens {
        [] => Some(Item::Variable {
            name,
            values,
            sensed: false,
        }),
        [first, rest @ ..] => {
            if is_lexeme(first, Kind::Word, b"sensed") {
                let item = Item::Variable {
                    name,
                    values,
                    sensed: true,
                };
                ended(item, rest)
            } else {
                None
            }
        }
    }
}

#[tactic(auto, unfolding(crate::specs::Items::variable_at))]
fn variable_at<'a, 'b>(
    alloc: Global,
    tokens: &'b [Token<'a>],
) -> Result<Option<Item<'a, 'b>>, AllocError>
    ensures { IfOk result (λ read.
        option_map shown_item read ≡ variable_at (map lexeme_of tokens.now)) }
{
    match named_list_at(alloc, tokens)? {
        Some((name, values, rest)) => Ok(sensed_at(name, values, rest)),
        None => Ok(None),
    }
}

#[tactic(auto, unfolding(crate::specs::Items::move_at))]
fn move_at<'a, 'b>(repair: bool, tokens: &'b [Token<'a>]) -> Option<Item<'a, 'b>>
    ensures { option_map shown_item result ≡ move_at repair (map lexeme_of tokens.now) }
{
    let (ends, rest) = ends_at(tokens)?;
    let rest = next_is(Kind::Word, b"by", rest)?;
    let (command, rest) = name_word_at(rest)?;
    let guard = next_is(Kind::Word, b"when", rest)?;
    Some(Item::Move {
        repair,
        ends,
        command,
        guard,
    })
}

#[tactic(auto, unfolding(crate::specs::Items::failure_at))]
fn failure_at<'a, 'b>(tokens: &'b [Token<'a>]) -> Option<Item<'a, 'b>>
    ensures { option_map shown_item result ≡ failure_at (map lexeme_of tokens.now) }
{
    let (ends, rest) = ends_at(tokens)?;
    let rest = next_is(Kind::Word, b"cost", rest)?;
    let (cost, rest) = number_at(rest)?;
    ended(Item::Failure { ends, cost }, rest)
}

/// What a line with these tokens says, if it has a form.
pub fn item_of<'a, 'b>(
    alloc: Global,
    tokens: &'b [Token<'a>],
) -> Result<Option<Item<'a, 'b>>, AllocError>
    ensures { IfOk result (λ read.
        option_map shown_item read ≡ item_of (map lexeme_of tokens.now)) }
{
    match tokens {
        [] => Ok(None),
        [first, rest @ ..] => {
            if is_lexeme(first, Kind::Word, b"titan") {
                Ok(header_at(rest))
            } else if is_lexeme(first, Kind::Word, b"component") {
                component_at(alloc, rest)
            } else if is_lexeme(first, Kind::Word, b"var") {
                variable_at(alloc, rest)
            } else if is_lexeme(first, Kind::Word, b"rule") {
                Ok(Some(Item::Rule(rest)))
            } else if is_lexeme(first, Kind::Word, b"move") {
                Ok(move_at(false, rest))
            } else if is_lexeme(first, Kind::Word, b"repair") {
                Ok(move_at(true, rest))
            } else if is_lexeme(first, Kind::Word, b"fail") {
                Ok(failure_at(rest))
            } else if is_lexeme(first, Kind::Word, b"script") {
                Ok(ended(Item::Script, rest))
            } else {
                Ok(None)
            }
        }
    }
}

/// The grammar beside the reading: what an item spells is read as that item, and what is read as an item is its spelling.
pub fn lines_are_spelled()
    ensures read { (i : SpelledItem) → IsSpelled i → item_of (line_spelled i) ≡ Some i }
    ensures spelled { (ls : List Lexeme) (i : SpelledItem) → item_of ls ≡ Some i →
        (ls ≡ line_spelled i) × IsSpelled i }
{}
