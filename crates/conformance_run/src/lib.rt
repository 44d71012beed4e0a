//! Calls of the rooms `control` and `run` that no run of the program shows, with enough memory, as tests.
#![tactic(auto)]

#[cfg(test)]
mod checkers;
#[cfg(test)]
mod compiled;
#[cfg(test)]
mod executives;
#[cfg(test)]
mod programs;
#[cfg(test)]
mod trials;
