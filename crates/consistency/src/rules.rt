//! A model with the clauses of its rules.

ghost use Rattle.std.specs.Prelude.{◌≡◌};
ghost use Rattle.cca_base.specs.Prelude.{WellFormed};
ghost use Rattle.consistency.specs.Worlds.{AreWorldsOf};

use crate::worlds::Worlds;
use cca_base::Model;
use std::alloc::Global;

/// A model with the clauses of its rules, which the caller made.
#[derive(Drop)]
pub struct Rules<'a> {
    pub alloc: Global,
    pub model: &'a Model,
    pub worlds: &'a Worlds,
    ghost of: { AreWorldsOf model.now worlds.now },
}

/// The model with its clauses.
pub fn rules_of<'a>(alloc: Global, model: &'a Model, worlds: &'a Worlds) -> Rules<'a>
    requires { AreWorldsOf model.now worlds.now }
    ensures model { result.model.now ≡ model.now }
    ensures well_formed { WellFormed model.now }
{
    // The prover is to know that the model is well formed.
    let _moves = model.moves();
    Rules {
        alloc,
        model,
        worlds,
    }
}
