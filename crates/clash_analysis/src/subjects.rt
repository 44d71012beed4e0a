//! Sets of subjects, as words of bits.

ghost use Rattle.std.specs.Prelude.{◌≡◌, ℕ, ◌==◌, ◌||◌, ◌<◌, true, false};
ghost use Rattle.clash_analysis.specs.Subjects.{is_in};

/// How many subjects the bits of a word stand for.
pub const WORD_BITS: usize = 64;

/// How many words a set has.
pub const WORDS: usize = 8;

/// One more than the greatest number of a subject in a set.
pub const SET_SUBJECTS: usize = WORDS * WORD_BITS;

/// A set of subjects, by their numbers below `SET_SUBJECTS`.
#[derive(Clone, Copy)]
pub struct SubjectSet {
    words: [u64; WORDS],
}

/// The set with nothing in it.
pub fn no_subject() -> SubjectSet
    ensures { (n : ℕ) → is_in result n ≡ false }
{
    SubjectSet { words: [0; WORDS] }
}

/// The set with `n` in it besides.
pub fn with_subject(set: &SubjectSet, n: u16) -> SubjectSet
    requires { n < SET_SUBJECTS }
    ensures { (m : ℕ) → is_in result m ≡ (m == n || is_in set.now m) }
{
    let mut words = set.words;
    let place = n as usize / WORD_BITS;
    words[place] |= 1 << (n as usize % WORD_BITS);
    SubjectSet { words }
}

/// Whether `n` is in the set.
pub fn has_subject(set: &SubjectSet, n: u16) -> bool
    ensures { result ≡ is_in set.now n }
{
    let word = n as usize / WORD_BITS;
    word < WORDS && (set.words[word] >> (n as usize % WORD_BITS)) & 1 == 1
}
