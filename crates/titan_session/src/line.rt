//! Whether bytes are one line.

ghost use Rattle.std.specs.Prelude.{◌≡◌, true, false};
ghost use Rattle.line_machine.specs.Lines.{HasNoLf};

use line_machine::lf_place;

/// Whether the bytes have no LF.
#[tactic(auto, using(line_machine::proofs::FirstLineFeed::none_is_clean, line_machine::proofs::FirstLineFeed::some_is_not))]
pub fn is_one_line(bytes: &[u8]) -> bool
    ensures clean { result ≡ true → HasNoLf bytes.now }
    ensures broken { result ≡ false → ¬ (HasNoLf bytes.now) }
{
    match lf_place(bytes) {
        None => true,
        Some(_) => false,
    }
}
