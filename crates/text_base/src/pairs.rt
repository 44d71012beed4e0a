//! Pairs of a name and a value.

ghost use Rattle.std.specs.Prelude.{◌≡◌, map, IfOk};
ghost use Rattle.std.specs.Option.{option_map};
ghost use Rattle.text_base.specs.Lexemes.{lexeme_of};
ghost use Rattle.text_base.specs.Pairs.{pair_at, pairs_at, shown_pair};

use crate::cursor::{name_word_at, next_is};
use crate::token::{Kind, Token};
use std::alloc::{AllocError, Global};

/// A name and a value, by their words.
#[derive(Clone, Copy, Debug)]
pub struct NamedPair<'a> {
    pub name: &'a [u8],
    pub value: &'a [u8],
}

/// The pair at the front of the tokens, and what stands behind it.
#[tactic(auto, unfolding(crate::specs::Pairs::pair_at))]
pub fn pair_at<'a, 'b>(tokens: &'b [Token<'a>]) -> Option<(NamedPair<'a>, &'b [Token<'a>])>
    ensures { option_map (λ r. (shown_pair r.0, map lexeme_of r.1.now)) result
        ≡ pair_at (map lexeme_of tokens.now) }
{
    let (name, rest) = name_word_at(tokens)?;
    let rest = next_is(Kind::Symbol, b"=", rest)?;
    let (value, rest) = name_word_at(rest)?;
    Some((NamedPair { name, value }, rest))
}

/// One or more pairs with commas between them, and what stands behind.
pub fn pairs_at<'a, 'b>(
    alloc: Global,
    tokens: &'b [Token<'a>],
) -> Result<Option<(Vec<NamedPair<'a>>, &'b [Token<'a>])>, AllocError>
    ensures { IfOk result (λ read.
        option_map (λ r. (map shown_pair r.0.items, map lexeme_of r.1.now)) read
        ≡ pairs_at (map lexeme_of tokens.now)) }
{
    let mut pairs = Vec::new(alloc);
    let mut at = 0;
    'pairs: while let Some((pair, behind)) = pair_at(&tokens[at..]) {
        pairs.push(pair)?;
        match next_is(Kind::Symbol, b",", behind) {
            Some(_) => at += 4,
            None => return Ok(Some((pairs, behind))),
        }
    }
    Ok(None)
}
