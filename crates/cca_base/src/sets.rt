//! Sets of small numbers as words of bits.

ghost use Rattle.std.specs.Prelude.{◌≡◌, ℕ, ◌==◌, ◌||◌, ◌&&◌, ◌<◌, ◌≤◌, ◌^◌, ◌-◌, false, nat_lt, bit_or, bit_and};
ghost use Rattle.cca_base.specs.declared.limits.TheConstants.{MAX_CHOICES, MAX_VARIABLES};
ghost use Rattle.cca_base.specs.Sets.{has, with_number};

use crate::limits::{MAX_CHOICES, MAX_VARIABLES};
use std::marker::Model;

/// How many variables each of the two words of a set of variables stands for.
const WORD_BITS: u16 = 128;

/// A set of numbers below `MAX_CHOICES`, as of a component's modes or a variable's values.
#[derive(Clone, Copy, Debug, PartialEq, Eq)]
pub struct ValueSet {
    bits: u64,
}

impl Model for ValueSet {
    ghost use Rattle.std.specs.Prelude.{ℕ, ◌<◌, ◌^◌, false};
    ghost use Rattle.cca_base.specs.declared.limits.TheConstants.{MAX_CHOICES};

    ghost Value = { ℕ };

    ghost view = { λ s. s.bits };

    ghost invariant = { λ s. s.bits < 2 ^ MAX_CHOICES };

    ghost inverse = { λ n. record { bits = n } };
}

impl ValueSet {
    /// The set with nothing in it.
    #[tactic(auto, using(crate::proofs::SetLaws::members))]
    pub fn empty() -> ValueSet
        ensures value { result ≡ 0 }
        ensures members { (m : ℕ) → has result m ≡ false }
    {
        ValueSet { bits: 0 }
    }

    /// The set with `n` in it besides.
    #[tactic(auto, using(crate::proofs::SetLaws::members))]
    pub fn with(self, n: u8) -> ValueSet
        requires { n < MAX_CHOICES }
        ensures value { result ≡ with_number self n }
        ensures members { (m : ℕ) → has result m ≡ (m == n || has self m) }
    {
        let bits: u64 = self.bits | (1 << n);
        ValueSet { bits }
    }

    /// Whether `n` is in the set, which no number past its width is.
    #[tactic(auto, using(std::proofs::lemmas::Nat::Bits::shr_and_one, std::proofs::lemmas::Nat::Bits::bit_at_above))]
    pub fn has(self, n: u8) -> bool
        ensures { result ≡ has self n }
    {
        (n as usize) < MAX_CHOICES && (self.bits >> n) & 1 == 1
    }

    /// The set of all numbers below `n`.
    pub fn full(n: u8) -> ValueSet
        requires { n ≤ MAX_CHOICES }
        ensures value { result ≡ 2 ^ n - 1 }
        ensures members { (m : ℕ) → has result m ≡ nat_lt m n }
    {
        let ones = (1u128 << n) - 1;
        ValueSet { bits: ones as u64 }
    }

    /// The set as a word, whose bits say which numbers are in it.
    pub fn bits(self) -> u64
        ensures { result ≡ self }
    {
        self.bits
    }

    /// Whether nothing is in the set.
    pub fn is_empty(self) -> bool
        ensures { result ≡ (self == 0) }
    {
        self.bits == 0
    }

    /// What is in one of the sets.
    #[tactic(auto, using(crate::proofs::SetLaws::members))]
    pub fn union(self, other: ValueSet) -> ValueSet
        ensures value { result ≡ bit_or self other }
        ensures members { (m : ℕ) → has result m ≡ (has self m || has other m) }
    {
        ValueSet {
            bits: self.bits | other.bits,
        }
    }

    /// What is in both sets.
    #[tactic(auto, using(crate::proofs::SetLaws::members))]
    pub fn common(self, other: ValueSet) -> ValueSet
        ensures value { result ≡ bit_and self other }
        ensures members { (m : ℕ) → has result m ≡ (has self m && has other m) }
    {
        ValueSet {
            bits: self.bits & other.bits,
        }
    }

    /// Whether all that is in this set is in the other.
    pub fn is_within(self, other: ValueSet) -> bool
        ensures { result ≡ (bit_or self other == other) }
    {
        self.bits | other.bits == other.bits
    }
}

/// A set of variables, by their numbers below `MAX_VARIABLES`.
#[derive(Clone, Copy, Debug, PartialEq, Eq)]
pub struct VarSet {
    low: u128,
    high: u128,
}

impl Model for VarSet {
    ghost use Rattle.std.specs.Prelude.{ℕ, ◌<◌, ◌≤◌, ◌+◌, ◌*◌, ◌/◌, ◌%◌, ◌^◌, false};
    ghost use Rattle.cca_base.specs.declared.sets.TheConstants.{WORD_BITS};

    ghost Value = { ℕ };

    ghost view = { λ s. s.high * 2 ^ WORD_BITS + s.low };

    ghost invariant = { λ s. (s.low < 2 ^ WORD_BITS) × (s.high < 2 ^ WORD_BITS) };

    ghost inverse = { λ n. record { low = n % 2 ^ WORD_BITS; high = n / 2 ^ WORD_BITS } };
}

impl VarSet {
    /// The set with nothing in it.
    #[tactic(auto, using(crate::proofs::SetLaws::members))]
    pub fn empty() -> VarSet
        ensures value { result ≡ 0 }
        ensures members { (m : ℕ) → has result m ≡ false }
    {
        VarSet { low: 0, high: 0 }
    }

    /// The set with `n` in it besides.
    #[tactic(auto, using(crate::proofs::SetLaws::members))]
    pub fn with(self, n: u16) -> VarSet
        requires { n < MAX_VARIABLES }
        ensures value { result ≡ with_number self n }
        ensures members { (m : ℕ) → has result m ≡ (m == n || has self m) }
    {
        if n < WORD_BITS {
            VarSet {
                low: self.low | (1 << n),
                high: self.high,
            }
        } else {
            VarSet {
                low: self.low,
                high: self.high | (1 << (n - WORD_BITS)),
            }
        }
    }

    /// Whether `n` is in the set, which no number past its width is.
    #[tactic(auto, using(std::proofs::lemmas::Nat::Bits::shr_and_one, std::proofs::lemmas::Nat::Bits::bit_at_above))]
    pub fn has(self, n: u16) -> bool
        ensures { result ≡ has self n }
    {
        if n < WORD_BITS {
            (self.low >> n) & 1 == 1
        } else {
            (n as usize) < MAX_VARIABLES && (self.high >> (n - WORD_BITS)) & 1 == 1
        }
    }
}
