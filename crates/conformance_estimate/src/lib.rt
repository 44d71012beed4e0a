//! Calls of the room `estimate` that no run of the program shows, with enough memory, as tests.
#![tactic(auto)]

#[cfg(test)]
mod estimates;
#[cfg(test)]
mod windows;
