//! What the modes weigh.

ghost use Rattle.std.specs.Prelude.{◌≡◌};
ghost use Rattle.cca_base.specs.Prelude.{IsState};
ghost use Rattle.wish_laws.specs.Settled.{weight_of};
ghost use Rattle.goal_interpreter.specs.Weights.{AreWeights};

use cca_base::{List, Model, State};

/// A weight for each mode of each component.
#[derive(Debug, Drop)]
pub struct Weights {
    /// For each component in the model's order, the weight of each of its modes.
    pub rows: List<List<u32>>,
}

impl Weights {
    /// What the state weighs.
    pub(crate) fn weigh(&self, model: &Model, state: &State) -> u64
        requires weights { AreWeights model.now self.now.rows }
        requires state { IsState model.now state.now.modes }
        ensures { result ≡ weight_of self.now.rows state.now.modes }
    {
        let _components = model.components();
        let mut sum: u64 = 0;
        for c in 0..self.rows.len() {
            let row = self.rows.get(c);
            sum += *row.get(*state.modes.get(c) as usize) as u64;
        }
        sum
    }
}
