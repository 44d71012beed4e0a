//! Decimal numbers of at most 128 bits.

ghost use Rattle.std.specs.Prelude.{◌≡◌, ◌≢◌, ◌<◌, ◌^◌, ℕ, IfSome, IfNone};
ghost use Rattle.std.specs.Fmt.{decimal};
ghost use Rattle.text_base.specs.Numerals.{is_numeral};

use crate::bytes::are_digits;

/// Whether the text is `0`, or a digit 1 to 9 with further digits.
fn is_numeral(text: &[u8]) -> bool
    ensures { result ≡ is_numeral text.now }
{
    match text {
        [b'0', rest @ ..] => rest.is_empty(),
        [first, rest @ ..] => first.is_ascii_digit() && are_digits(rest),
        [] => false,
    }
}

/// The number that the text is, if it is one of at most 128 bits.
pub fn read_number(text: &[u8]) -> Option<u128>
    ensures some { IfSome result (λ n. text.now ≡ decimal n) }
    ensures none { IfNone result ((n : ℕ) → n < 2 ^ 128 → text.now ≢ decimal n) }
{
    if !is_numeral(text) {
        return None;
    }
    match std::str::from_utf8(text) {
        Ok(digits) => digits.parse::<u128>().ok(),
        Err(_) => None,
    }
}
