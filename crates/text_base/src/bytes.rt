//! Texts of bytes compared.

ghost use Rattle.std.specs.Prelude.{◌≡◌, length, ◌≤◌};
ghost use Rattle.std.specs.List.{list_all, prefix_len};
ghost use Rattle.std.specs.Char.{is_ascii_digit};
ghost use Rattle.cca_base.specs.Prelude.{is_word_byte};
ghost use Rattle.text_base.specs.Bytes.{is_blank, is_symbol, is_comment_byte};

/// Whether the byte is a space or a tab.
pub fn is_blank(b: u8) -> bool
    ensures { result ≡ is_blank b }
{
    b == b' ' || b == b'\t'
}

/// Whether the byte is a letter `a` to `z`, a digit or `_`.
pub fn is_word_byte(b: u8) -> bool
    ensures { result ≡ is_word_byte b }
{
    b.is_ascii_lowercase() || b.is_ascii_digit() || b == b'_'
}

/// Whether the byte is a symbol by itself.
pub fn is_symbol(b: u8) -> bool
    ensures { result ≡ is_symbol b }
{
    matches!(b, b'=' | b',' | b'(' | b')' | b'{' | b'}')
}

/// Whether the byte is one that may stand in a comment: a tab, or 32 to 126.
pub fn is_comment_byte(b: u8) -> bool
    ensures { result ≡ is_comment_byte b }
{
    b == b'\t' || (32 <= b && b <= 126)
}

/// Whether each byte may stand in a word.
pub fn are_word_bytes(bytes: &[u8]) -> bool
    ensures { result ≡ list_all is_word_byte bytes.now }
{
    bytes.iter().all(|b| is_word_byte(*b))
}

/// Whether each byte is a digit.
pub fn are_digits(bytes: &[u8]) -> bool
    ensures { result ≡ list_all is_ascii_digit bytes.now }
{
    bytes.iter().all(|b| b.is_ascii_digit())
}

/// How many bytes at the front may stand in a word.
#[tactic(auto, using(std::proofs::lemmas::List::Sums::prefix_len_is))]
pub fn word_len(bytes: &[u8]) -> usize
    ensures value { result ≡ prefix_len is_word_byte bytes.now }
    ensures within { result ≤ length bytes.now }
{
    for (i, b) in bytes.iter().enumerate() {
        if !is_word_byte(*b) {
            return i;
        }
    }
    bytes.len()
}

/// How many bytes at the front are digits.
#[tactic(auto, using(std::proofs::lemmas::List::Sums::prefix_len_is))]
pub fn digits_len(bytes: &[u8]) -> usize
    ensures value { result ≡ prefix_len is_ascii_digit bytes.now }
    ensures within { result ≤ length bytes.now }
{
    for (i, b) in bytes.iter().enumerate() {
        if !b.is_ascii_digit() {
            return i;
        }
    }
    bytes.len()
}
