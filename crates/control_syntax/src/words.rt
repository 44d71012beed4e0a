//! What the words of a line say by themselves, whatever was read before.

ghost use Rattle.std.specs.Prelude.{◌≡◌, ◌∷◌, codes, map};
ghost use Rattle.std.specs.Option.{option_map};
ghost use Rattle.cca_base.specs.Prelude.{Answers};
ghost use Rattle.text_base.specs.Lexemes.{lexeme_of, word};
ghost use Rattle.control_syntax.specs.Codes.{IsSaidByWords};
ghost use Rattle.control_syntax.specs.Words.{IsAlone, only_digits};

use crate::limits::MAX_ROUNDS;
use crate::line::Line;
use cca_base::Stop;
use cca_base::codes::{LIMIT, MALFORMED, NAME_UNKNOWN};
use formula_syntax::{NamedModel, read_formula};
use model_syntax::number_at;
use script_reader::{Naming, each_pair, only_pairs};
use std::alloc::Global;
use text_base::{Kind, Token, is_lexeme, read_number};

/// The line, where nothing stands behind its word.
fn alone(line: Line, rest: &[Token]) -> Result<Line, Stop>
    ensures { Answers result (IsAlone line (map lexeme_of rest.now)) }
{
    if rest.is_empty() {
        Ok(line)
    } else {
        Err(Stop::refused(MALFORMED))
    }
}

/// Pairs that are asked for, by what stands behind the word reach.
fn reach_line(alloc: Global, model: &NamedModel, rest: &[Token]) -> Result<Line, Stop>
    ensures { Answers result
        (IsSaidByWords model.now (word (codes "reach") ∷ map lexeme_of rest.now)) }
{
    let Some(named) = only_pairs(alloc, rest)? else {
        return Err(Stop::refused(MALFORMED));
    };
    match each_pair(alloc, model, Naming::Modes, named.as_slice())? {
        Some(pairs) => Ok(Line::Reach(pairs)),
        None => Err(Stop::refused(NAME_UNKNOWN)),
    }
}

/// The digits, where nothing follows.
#[tactic(auto, unfolding(crate::specs::Words::only_digits))]
fn only_digits<'a>(tokens: &[Token<'a>]) -> Option<&'a [u8]>
    ensures { option_map (λ digits. digits.now) result ≡ only_digits (map lexeme_of tokens.now) }
{
    let (digits, rest) = number_at(tokens)?;
    if rest.is_empty() { Some(digits) } else { None }
}

/// A block that goes round, by what stands behind the word repeat.
fn repeat_line(model: &NamedModel, rest: &[Token]) -> Result<Line, Stop>
    ensures { Answers result
        (IsSaidByWords model.now (word (codes "repeat") ∷ map lexeme_of rest.now)) }
{
    let Some(digits) = only_digits(rest) else {
        return Err(Stop::refused(MALFORMED));
    };
    let Some(rounds) = read_number(digits) else {
        return Err(Stop::refused(MALFORMED));
    };
    if rounds < 1 || rounds > MAX_ROUNDS as u128 {
        return Err(Stop::refused(LIMIT));
    }
    Ok(Line::Repeat(rounds as u32))
}

/// What a line says by its words: its first, and what stands behind that.
pub fn words_line(
    alloc: Global,
    model: &NamedModel,
    first: &Token,
    rest: &[Token],
) -> Result<Line, Stop>
    ensures { Answers result
        (IsSaidByWords model.now (lexeme_of first.now ∷ map lexeme_of rest.now)) }
{
    if is_lexeme(first, Kind::Word, b"reach") {
        reach_line(alloc, model, rest)
    } else if is_lexeme(first, Kind::Word, b"await") {
        Ok(Line::Await(read_formula(alloc, model.model(), rest)?))
    } else if is_lexeme(first, Kind::Word, b"choose") {
        Ok(Line::Choose(read_formula(alloc, model.model(), rest)?))
    } else if is_lexeme(first, Kind::Word, b"repeat") {
        repeat_line(model, rest)
    } else if is_lexeme(first, Kind::Word, b"program") {
        alone(Line::Program, rest)
    } else if is_lexeme(first, Kind::Word, b"seq") {
        alone(Line::Seq, rest)
    } else if is_lexeme(first, Kind::Word, b"both") {
        alone(Line::Both, rest)
    } else if is_lexeme(first, Kind::Word, b"otherwise") {
        alone(Line::Otherwise, rest)
    } else if is_lexeme(first, Kind::Word, b"done") {
        alone(Line::Done, rest)
    } else if is_lexeme(first, Kind::Word, b"end") {
        alone(Line::End, rest)
    } else {
        Err(Stop::refused(MALFORMED))
    }
}
