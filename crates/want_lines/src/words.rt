//! The words of a line that sets a weight.

ghost use Rattle.std.specs.Prelude.{◌≡◌, List, map, ℕ};
ghost use Rattle.std.specs.Option.{option_map};
ghost use Rattle.text_base.specs.Lexemes.{lexeme_of};
ghost use Rattle.text_base.specs.Lists.{ended};
ghost use Rattle.text_base.specs.Pairs.{NamedPair as WordPair, shown_pair};
ghost use Rattle.want_lines.specs.Words.{weight_at};

use model_syntax::number_at;
use text_base::{Kind, NamedPair, Token, next_is, pair_at};

/// The pair and the digits, where nothing follows.
fn ended<'a>(
    pair: NamedPair<'a>,
    digits: &'a [u8],
    rest: &[Token],
) -> Option<(NamedPair<'a>, &'a [u8])>
    ensures { option_map {U = WordPair × List ℕ} (λ r. (shown_pair r.0, r.1.now)) result
        ≡ ended (shown_pair pair.entry, digits.now) (map lexeme_of rest.now) }
{
    if rest.is_empty() {
        Some((pair, digits))
    } else {
        None
    }
}

/// Behind the word weight: a pair, and the digits of its weight, where nothing follows.
#[tactic(auto, unfolding(crate::specs::Words::weight_at))]
pub fn weight_at<'a>(tokens: &[Token<'a>]) -> Option<(NamedPair<'a>, &'a [u8])>
    ensures { option_map (λ r. (shown_pair r.0, r.1.now)) result
        ≡ weight_at (map lexeme_of tokens.now) }
{
    let (pair, rest) = pair_at(tokens)?;
    let rest = next_is(Kind::Word, b"cost", rest)?;
    let (digits, rest) = number_at(rest)?;
    ended(pair, digits, rest)
}
