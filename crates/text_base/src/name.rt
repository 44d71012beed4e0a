//! Words that are names.

ghost use Rattle.std.specs.Prelude.{◌≡◌, false, IfSome, IfNone, IsTrue};
ghost use Rattle.cca_base.specs.Prelude.{is_name, is_reserved, is_word};

use crate::bytes::are_word_bytes;
use cca_base::{MAX_NAME, Name};

/// Whether the text is a letter `a` to `z`, and then letters, digits and `_`.
fn is_word(text: &[u8]) -> bool
    ensures { result ≡ is_word text.now }
{
    match text {
        [first, rest @ ..] => first.is_ascii_lowercase() && are_word_bytes(rest),
        [] => false,
    }
}

/// Whether the text is a word that the text of a model uses itself.
pub fn is_reserved(text: &[u8]) -> bool
    ensures { result ≡ is_reserved text.now }
{
    text == b"and".as_slice()
        || text == b"or".as_slice()
        || text == b"not".as_slice()
        || text == b"in".as_slice()
        || text == b"implies".as_slice()
        || text == b"iff".as_slice()
        || text == b"true".as_slice()
        || text == b"false".as_slice()
        || text == b"when".as_slice()
        || text == b"by".as_slice()
        || text == b"start".as_slice()
        || text == b"cost".as_slice()
        || text == b"sensed".as_slice()
}

/// The name that the text is, if it is one.
pub fn read_name(text: &[u8]) -> Option<Name>
    ensures some { IfSome result (λ name. (name ≡ text.now) × IsTrue (is_name text.now)) }
    ensures none { IfNone result (is_name text.now ≡ false) }
{
    if is_word(text) && text.len() <= MAX_NAME && !is_reserved(text) {
        Some(Name::of(text))
    } else {
        None
    }
}
