//! Sets of values as words of bits.

ghost use Rattle.std.specs.Prelude.{◌≡◌, ◌≢◌, ℕ, true, false, ◌+◌, ◌^◌, ◌<◌, ◌&&◌, nat_lt};
ghost use Rattle.cca_base.specs.Sets.{has};
ghost use Rattle.cca_base.specs.declared.limits.TheConstants.{MAX_CHOICES};

use cca_base::MAX_CHOICES;

/// Whether the value is in the set.
#[tactic(auto, using(std::proofs::lemmas::Nat::Bits::shr_and_one, std::proofs::lemmas::Nat::Bits::bit_at_above))]
pub fn has_value(word: u64, value: u8) -> bool
    ensures { result ≡ has word value }
{
    (value as usize) < MAX_CHOICES && (word >> value) & 1 == 1
}

/// The set without a value that it has.
pub(crate) fn without(word: u64, value: u8) -> u64
    requires small { value < MAX_CHOICES }
    requires has { has word value ≡ true }
    ensures sum { result + 2 ^ value ≡ word }
    ensures kept { (a : ℕ) → has word a ≡ true → a ≢ value → has result a ≡ true }
    ensures within { (a : ℕ) → has result a ≡ true → has word a ≡ true }
    ensures gone { has result value ≡ false }
{
    word & !(1u64 << value)
}

/// The set of the value alone.
pub(crate) fn only(value: u8) -> u64
    requires small { value < MAX_CHOICES }
    ensures word { result ≡ 2 ^ value }
    ensures has { has result value ≡ true }
    ensures alone { (a : ℕ) → has result a ≡ true → a ≡ value }
{
    1u64 << value
}

/// The lower values of the set.
pub(crate) fn below(word: u64, value: u8) -> u64
    requires small { value < MAX_CHOICES }
    ensures { (a : ℕ) → has result a ≡ (has word a && nat_lt a value) }
{
    word & ((1u64 << value) - 1)
}
