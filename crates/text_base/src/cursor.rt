//! A walk over the tokens of a line.

ghost use Rattle.std.specs.Prelude.{◌≡◌, map, IfOk};
ghost use Rattle.std.specs.Option.{option_map};
ghost use Rattle.text_base.specs.Lexemes.{lexeme_of, same_kind, is_lexeme, is_name_word, next_is, name_word_at};
ghost use Rattle.text_base.specs.Lists.{names_at};

use crate::name::is_reserved;
use crate::token::{Kind, Token};
use std::alloc::{AllocError, Global};

fn same_kind(a: Kind, b: Kind) -> bool
    ensures { result ≡ same_kind a b }
{
    match (a, b) {
        (Kind::Word, Kind::Word) | (Kind::Number, Kind::Number) | (Kind::Symbol, Kind::Symbol) =>
            true,
        _ => false,
    }
}

/// Whether the token has this kind and this text.
pub fn is_lexeme(token: &Token, kind: Kind, text: &[u8]) -> bool
    ensures { result ≡ is_lexeme (kind, text.now) (lexeme_of token.now) }
{
    same_kind(token.kind, kind) && token.text == text
}

/// Whether the token is a word that may stand in place of a name, however long it is.
pub fn is_name_word(token: &Token) -> bool
    ensures { result ≡ is_name_word (lexeme_of token.now) }
{
    same_kind(token.kind, Kind::Word) && !is_reserved(token.text)
}

/// What stands behind the first token, where that is this one.
pub fn next_is<'a, 'b>(kind: Kind, text: &[u8], tokens: &'b [Token<'a>]) -> Option<&'b [Token<'a>]>
    ensures { option_map (λ r. map lexeme_of r.now) result
        ≡ next_is (kind, text.now) (map lexeme_of tokens.now) }
{
    match tokens {
        [first, rest @ ..] => {
            if is_lexeme(first, kind, text) {
                Some(rest)
            } else {
                None
            }
        }
        [] => None,
    }
}

/// The first token, where it is a word that may stand in place of a name, and what stands behind it.
pub fn name_word_at<'a, 'b>(tokens: &'b [Token<'a>]) -> Option<(&'a [u8], &'b [Token<'a>])>
    ensures { option_map (λ r. (r.0.now, map lexeme_of r.1.now)) result
        ≡ name_word_at (map lexeme_of tokens.now) }
{
    match tokens {
        [first, rest @ ..] => {
            if is_name_word(first) {
                Some((first.text, rest))
            } else {
                None
            }
        }
        [] => None,
    }
}

/// One or more words in place of names, with commas between them, and what stands behind.
pub fn names_at<'a, 'b>(
    alloc: Global,
    tokens: &'b [Token<'a>],
) -> Result<Option<(Vec<&'a [u8]>, &'b [Token<'a>])>, AllocError>
    ensures { IfOk result (λ read.
        option_map (λ r. (map (λ n. n.now) r.0.items, map lexeme_of r.1.now)) read
        ≡ names_at (map lexeme_of tokens.now)) }
{
    let mut names = Vec::new(alloc);
    let mut at = 0;
    'names: while let Some((name, behind)) = name_word_at(&tokens[at..]) {
        names.push(name)?;
        match next_is(Kind::Symbol, b",", behind) {
            Some(_) => at += 2,
            None => return Ok(Some((names, behind))),
        }
    }
    Ok(None)
}
