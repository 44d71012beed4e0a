//! Calls of the rooms `base`, `io` and `text` that no run of the program shows, with enough memory, as tests.
#![tactic(auto)]

#[cfg(test)]
mod base;
#[cfg(test)]
mod chains;
#[cfg(test)]
mod events;
#[cfg(test)]
mod json;
#[cfg(test)]
mod text;
#[cfg(test)]
mod traces;
#[cfg(test)]
mod trials;
#[cfg(test)]
mod wire;
