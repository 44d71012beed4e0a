//! A walk over the tokens of a line that takes no memory.

ghost use Rattle.std.specs.Prelude.{◌≡◌, ◌==◌, [], ◌∷◌, length, MatchOption};
ghost use Rattle.std.specs.Option.{option_map};
ghost use Rattle.text_base.specs.Ahead.{AreLexemes};
ghost use Rattle.text_base.specs.Lexemes.{lexeme_of, next_is, name_word_at};
ghost use Rattle.text_base.specs.Pairs.{pair_at, shown_pair};
ghost use Rattle.text_base.specs.Tokens.{tokens_of};

use crate::cursor::{is_lexeme, is_name_word};
use crate::pairs::NamedPair;
use crate::token::{Kind, Next, Token, next_from};
use std::marker::Model;

/// A place in a line, from which on each byte belongs to something. A contract sees the lexemes from there on.
#[derive(Drop)]
pub struct Ahead<'a> {
    line: &'a [u8],
    at: usize,
}

impl<'a> Model for Ahead<'a> {
    ghost use Rattle.std.specs.Prelude.{List};
    ghost use Rattle.text_base.specs.Ahead.{IsGood, ahead};
    ghost use Rattle.text_base.specs.Lexemes.{Lexeme};

    ghost Value = { List Lexeme };

    ghost view = { λ a. ahead a.line.now a.at };

    ghost invariant = { λ a. IsGood a.line.now a.at };
}

impl<'a> Ahead<'a> {
    /// All that a line has, or None where a byte belongs to nothing.
    pub fn of(line: &'a [u8]) -> Option<Ahead<'a>>
        ensures { AreLexemes result (tokens_of line.now) }
    {
        let mut at = 0;
        'tokens: loop {
            match next_from(line, at) {
                Next::End => return Some(Ahead { line, at: 0 }),
                Next::Bad(_) => return None,
                Next::Here(token) => at = token.end,
            }
        }
    }

    /// The first token, and what stands behind it.
    pub fn next(&self) -> Option<(Token<'a>, Ahead<'a>)>
        ensures { MatchOption result (self.now ≡ []) (λ r. self.now ≡ lexeme_of r.0 ∷ r.1) }
    {
        match next_from(self.line, self.at) {
            Next::Here(token) => Some((
                token,
                Ahead {
                    line: self.line,
                    at: token.end,
                },
            )),
            _ => None,
        }
    }

    /// Whether no token is left.
    pub fn is_empty(&self) -> bool
        ensures { result ≡ (length self.now == 0) }
    {
        self.next().is_none()
    }

    /// What stands behind the first token, where that is this one.
    pub fn next_is(&self, kind: Kind, text: &[u8]) -> Option<Ahead<'a>>
        ensures { result ≡ next_is (kind, text.now) self.now }
    {
        let (first, rest) = self.next()?;
        if is_lexeme(&first, kind, text) {
            Some(rest)
        } else {
            None
        }
    }

    /// The first token, where it is a word that may stand in place of a name, and what stands behind it.
    pub fn name_word(&self) -> Option<(&'a [u8], Ahead<'a>)>
        ensures { option_map (λ r. (r.0.now, r.1)) result ≡ name_word_at self.now }
    {
        let (first, rest) = self.next()?;
        if is_name_word(&first) {
            Some((first.text, rest))
        } else {
            None
        }
    }

    /// The pair at the front, and what stands behind it.
    #[tactic(auto, unfolding(crate::specs::Pairs::pair_at))]
    pub fn pair(&self) -> Option<(NamedPair<'a>, Ahead<'a>)>
        ensures { option_map (λ r. (shown_pair r.0, r.1)) result ≡ pair_at self.now }
    {
        let (name, rest) = self.name_word()?;
        let rest = rest.next_is(Kind::Symbol, b"=")?;
        let (value, rest) = rest.name_word()?;
        Some((NamedPair { name, value }, rest))
    }
}
