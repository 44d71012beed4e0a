//! The words of a line that stand for names.

ghost use Rattle.std.specs.Prelude.{◌≡◌, ◌<◌, false, length, map, position, IfOk, IfSome};
ghost use Rattle.std.specs.List.{list_any};
ghost use Rattle.std.specs.Str.{bytes_eq};
ghost use Rattle.formula_syntax.specs.Meanings.{has_twice};
ghost use Rattle.model_syntax.specs.Codes.{is_long, start_mode};

use cca_base::{List, MAX_NAME, Name};
use std::alloc::{AllocError, Global};

/// Whether the text is longer than a name may be.
pub fn is_long(text: &[u8]) -> bool
    ensures { result ≡ is_long text.now }
{
    text.len() > MAX_NAME
}

/// Whether one of the texts is longer than a name may be.
pub fn any_long(words: &[&[u8]]) -> bool
    ensures { result ≡ list_any is_long (map (λ w. w.now) words.now) }
{
    'words: for word in words {
        if is_long(word) {
            return true;
        }
    }
    false
}

/// Whether the text is one of the words.
fn occurs(words: &[&[u8]], text: &[u8]) -> bool
    ensures { result ≡ list_any (bytes_eq text.now) (map (λ w. w.now) words.now) }
{
    'words: for word in words {
        if text == *word {
            return true;
        }
    }
    false
}

/// Whether a word stands twice.
pub fn has_twice(words: &[&[u8]]) -> bool
    ensures { result ≡ has_twice (map (λ w. w.now) words.now) }
{
    'words: for (i, word) in words.iter().enumerate() {
        if occurs(&words[i + 1..], word) {
            return true;
        }
    }
    false
}

/// The place of a word in a list.
fn place_of_word(words: &[&[u8]], text: &[u8]) -> Option<usize>
    ensures place { result ≡ position (λ w. bytes_eq w.now text.now) words.now }
    ensures within { IfSome result (λ k. k < length words.now) }
{
    words.iter().position(|word| *word == text)
}

/// The number of the start mode among the words.
#[tactic(auto, using(formula_syntax::proofs::FirstPlaces::position_map))]
pub fn start_mode(modes: &[&[u8]], start: &[u8]) -> Option<usize>
    ensures start { result ≡ start_mode (map (λ w. w.now) modes.now) start.now }
    ensures within { IfSome result (λ k. k < length modes.now) }
{
    if is_long(start) {
        None
    } else {
        place_of_word(modes, start)
    }
}

/// The names that the words spell.
pub fn names_of(alloc: Global, words: &[&[u8]]) -> Result<List<Name>, AllocError>
    requires { list_any is_long (map (λ w. w.now) words.now) ≡ false }
    ensures { IfOk result (λ names. names ≡ map (λ w. w.now) words.now) }
{
    let mut names = List::new(alloc);
    'words: for word in words {
        names.push(Name::of(word))?;
    }
    Ok(names)
}
