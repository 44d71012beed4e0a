//! Sets of values as words, for each subject.

ghost use Rattle.std.specs.Prelude.{◌≡◌, false, length};

use cca_base::ValueSet;

/// Writes the sets as words. False comes where these are what they were.
pub fn put_words(sets: &[ValueSet], words: &mut [u64]) -> bool
    requires full { length sets.now ≡ length words.old }
    ensures value { words.new ≡ sets.now }
    ensures same { result ≡ false → words.new ≡ words.old }
{
    let mut are_others = false;
    for v in 0..sets.len() {
        let word = sets[v].bits();
        are_others |= words[v] != word;
        words[v] = word;
    }
    are_others
}
