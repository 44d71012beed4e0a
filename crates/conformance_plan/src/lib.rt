//! Calls of the room `plan` that no run of the program shows, with enough memory, as tests.
#![tactic(auto)]

#[cfg(test)]
mod classes;
#[cfg(test)]
mod plans;
#[cfg(test)]
mod tabled;
#[cfg(test)]
mod wishes;
