//! Lemmas on lists, options, Bool and orders that name only words of std, for the crates above. No code of its own.
#![tactic(auto)]
