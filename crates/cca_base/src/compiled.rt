//! What is compiled from an accepted model.

ghost use Rattle.std.specs.Prelude.{◌≡◌, ◌<◌, All, length, slice_index};
ghost use Rattle.cca_base.specs.Accepted.{IsCompiled, compiled_model};
ghost use Rattle.cca_base.specs.Bounds.{stated_number};
ghost use Rattle.cca_base.specs.Cube.{IsCube};

use crate::cube::Cube;
use crate::list::List;
use crate::model::Model;
use crate::state::Goal;

/// An accepted model with its moves' prime implicants, its components in effects-first order, and their bounds.
#[derive(Debug, Drop)]
pub struct Compiled {
    model: Model,
    ways: List<List<Cube>>,
    order: List<u16>,
    bounds: List<u64>,
}

impl std::marker::Model for Compiled {
    ghost use Rattle.cca_base.specs.Accepted.{CompiledModel, compiled_model};

    ghost Value = { CompiledModel };

    ghost use Rattle.cca_base.specs.Coded.{model_codes};

    ghost coded = { Prim.hlevel model_codes };

    ghost use Rattle.cca_base.specs.Accepted.{IsCompiled};

    ghost view = { λ c. compiled_model c.model c.ways c.order c.bounds };

    ghost invariant = { λ c. IsCompiled (compiled_model c.model c.ways c.order c.bounds) };
}

impl Compiled {
    /// The model with what is computed from it.
    pub fn new(
        model: Model,
        ways: List<List<Cube>>,
        order: List<u16>,
        bounds: List<u64>,
    ) -> Compiled
        requires { IsCompiled (compiled_model model ways order bounds) }
        ensures { result ≡ compiled_model model ways order bounds }
    {
        Compiled {
            model,
            ways,
            order,
            bounds,
        }
    }

    /// The model.
    pub fn model(&self) -> &Model
        ensures value { result.now ≡ self.now.model }
        ensures compiled { IsCompiled self.now }
    {
        &self.model
    }

    /// The model alone.
    pub fn into_model(self) -> Model
        ensures value { result ≡ self.model }
        ensures compiled { IsCompiled self }
    {
        self.model
    }

    /// The prime implicants of each move, in cube order.
    pub fn ways(&self) -> &List<List<Cube>>
        ensures value { result.now ≡ self.now.ways }
        ensures compiled { IsCompiled self.now }
    {
        &self.ways
    }

    /// The components, effects before their causes.
    pub fn order(&self) -> &List<u16>
        ensures value { result.now ≡ self.now.order }
        ensures compiled { IsCompiled self.now }
    {
        &self.order
    }

    /// The bound of each component.
    pub fn bounds(&self) -> &List<u64>
        ensures value { result.now ≡ self.now.bounds }
        ensures compiled { IsCompiled self.now }
    {
        &self.bounds
    }

    /// How many commands are enough to bring the component from any mode to any other that it can reach.
    pub fn bound_of(&self, c: u16) -> u64
        requires { c < length self.now.model.components }
        ensures { result ≡ slice_index self.now.bounds c }
    {
        *self.bounds().get(c as usize)
    }

    /// The goal's stated number: how many commands are enough for all its pairs.
    pub fn bound_of_goal(&self, goal: &Goal) -> u64
        requires once { IsCube goal.now.pairs }
        requires within { All (λ p. p.item < length self.now.model.components) goal.now.pairs }
        ensures { result ≡ stated_number self.now.bounds goal.now.pairs }
    {
        let bounds = self.bounds();
        let mut number = 0;
        for pair in goal.pairs.as_slice() {
            number += *bounds.get(pair.item as usize);
        }
        number
    }
}
