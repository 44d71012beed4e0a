//! Calls of the room `compile` that no run of the program shows, with enough memory, as tests.
#![tactic(auto)]

#[cfg(test)]
mod backbones;
#[cfg(test)]
mod clauses;
#[cfg(test)]
mod conflicts;
#[cfg(test)]
mod formulas;
#[cfg(test)]
mod goals;
#[cfg(test)]
mod kept;
#[cfg(test)]
mod needs;
#[cfg(test)]
mod primes;
#[cfg(test)]
mod states;
#[cfg(test)]
mod ways;
#[cfg(test)]
mod worlds;
