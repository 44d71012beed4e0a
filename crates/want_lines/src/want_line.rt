//! Lines behind a model, read one by one.

ghost use Rattle.std.specs.Prelude.{◌≡◌, ◌∷◌, Ok, codes, map, IfOk, IfSome};
ghost use Rattle.cca_base.specs.Prelude.{Answers};
ghost use Rattle.text_base.specs.Tokens.{token_view};
ghost use Rattle.text_base.specs.Lexemes.{lexeme_of, word};
ghost use Rattle.want_lines.specs.Requests.{FitsModel, IsRequestOf, IsRequestOfTokens, IsRequestOfWords};

use crate::request::Request;
use crate::words::weight_at;
use cca_base::codes::{LIMIT, MALFORMED, NAME_UNKNOWN, REPEATED_PAIR};
use cca_base::{MAX_WEIGHT, Stop};
use formula_syntax::{NamedModel, read_formula};
use script_reader::{Naming, each_pair, has_item_twice, only_pairs, stands_for};
use std::alloc::Global;
use text_base::{Kind, Token, TokenFault, is_lexeme, read_number, tokens};

/// A weight of a mode, by what stands behind the word weight.
fn weight_request(model: &NamedModel, rest: &[Token]) -> Result<Request, Stop>
    ensures { Answers result
        (IsRequestOfWords model.now (word (codes "weight") ∷ map lexeme_of rest.now)) }
{
    let Some((named, digits)) = weight_at(rest) else {
        return Err(Stop::refused(MALFORMED));
    };
    let Some(weight) = read_number(digits) else {
        return Err(Stop::refused(MALFORMED));
    };
    let Some(pair) = stands_for(model, Naming::Modes, &named) else {
        return Err(Stop::refused(NAME_UNKNOWN));
    };
    if weight > MAX_WEIGHT as u128 {
        return Err(Stop::refused(LIMIT));
    }
    Ok(Request::Weight {
        pair,
        weight: weight as u32,
    })
}

/// Components put into modes, by what stands behind the word at.
fn at_request(alloc: Global, model: &NamedModel, rest: &[Token]) -> Result<Request, Stop>
    ensures { Answers result
        (IsRequestOfWords model.now (word (codes "at") ∷ map lexeme_of rest.now)) }
{
    let Some(named) = only_pairs(alloc, rest)? else {
        return Err(Stop::refused(MALFORMED));
    };
    let Some(pairs) = each_pair(alloc, model, Naming::Modes, named.as_slice())? else {
        return Err(Stop::refused(NAME_UNKNOWN));
    };
    if has_item_twice(pairs.as_slice()) {
        return Err(Stop::refused(REPEATED_PAIR));
    }
    Ok(Request::At(pairs))
}

/// A formula for which a target state is wanted, by what stands behind the word want.
fn want_request(alloc: Global, model: &NamedModel, rest: &[Token]) -> Result<Request, Stop>
    ensures { Answers result
        (IsRequestOfWords model.now (word (codes "want") ∷ map lexeme_of rest.now)) }
{
    match read_formula(alloc, model.model(), rest) {
        Ok(formula) => Ok(Request::Want(formula)),
        Err(stop) => Err(stop),
    }
}

/// What a line asks for, by its first word and by what stands behind that.
fn word_request(
    alloc: Global,
    model: &NamedModel,
    first: &Token,
    rest: &[Token],
) -> Result<Request, Stop>
    ensures { Answers result
        (IsRequestOfWords model.now (lexeme_of first.now ∷ map lexeme_of rest.now)) }
{
    if is_lexeme(first, Kind::Word, b"weight") {
        weight_request(model, rest)
    } else if is_lexeme(first, Kind::Word, b"at") {
        at_request(alloc, model, rest)
    } else if is_lexeme(first, Kind::Word, b"want") {
        want_request(alloc, model, rest)
    } else {
        Err(Stop::refused(MALFORMED))
    }
}

/// What the tokens of a line ask for.
fn tokens_request(
    alloc: Global,
    model: &NamedModel,
    tokens: &[Token],
) -> Result<Option<Request>, Stop>
    ensures { Answers result (IsRequestOfTokens model.now (map lexeme_of tokens.now)) }
{
    match tokens {
        [] => Ok(None),
        [first, rest @ ..] => match word_request(alloc, model, first, rest) {
            Ok(request) => Ok(Some(request)),
            Err(stop) => Err(stop),
        },
    }
}

/// Reads one line behind a model, without its LF: what it asks for, or None for a line without tokens. The refusal has the least
/// code that applies, and no detail.
#[tactic(auto, using(crate::proofs::RequestsFit::answer_fits))]
pub fn read_request(alloc: Global, line: &[u8], model: &NamedModel) -> Result<Option<Request>, Stop>
    ensures answer { Answers result (IsRequestOf model.now line.now) }
    ensures fits { IfOk result (λ request. IfSome request (FitsModel model.now)) }
{
    match tokens(alloc, line) {
        Ok(tokens) => tokens_request(alloc, model, tokens.as_slice()),
        Err(TokenFault::Bad(_)) => Err(Stop::refused(MALFORMED)),
        Err(TokenFault::Memory) => Err(Stop::Memory),
    }
}
