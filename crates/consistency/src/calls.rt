//! The questions of a model whose clauses are made for the one call.

ghost use Rattle.std.specs.Prelude.{length, All, IfOk, IsNone, IsTrue};
ghost use Rattle.cca_base.specs.Prelude.{is_within, Follows, HasMode, HasValue, HasWorld, IsState};
ghost use Rattle.consistency.specs.Forced.{AreForced};
ghost use Rattle.consistency.specs.Found.{FitsSeen, Counters, IsFirstFound};

use crate::found::Found;
use crate::rules::Rules;
use crate::worlds::{Worlds, counter};
use cca_base::{Cube, Formula, Model, Seen, State, VarSet};
use std::alloc::{AllocError, Global};

/// The first state in mode order that extends the modes and has a world that agrees with what is seen, with its first
/// such world in value order. None comes exactly where there is none. The error is out of memory.
pub fn find_world(
    alloc: Global,
    model: &Model,
    modes: &Cube,
    seen: &Seen,
) -> Result<Option<Found>, AllocError>
    requires modes { All (λ p. HasMode model.now p.item p.value) modes.now }
    requires seen { All (λ p. HasValue model.now p.item p.value) seen.now.pairs }
    ensures { IfOk result (IsFirstFound (FitsSeen model.now modes.now seen.now.pairs)) }
{
    let worlds = Worlds::of(alloc, model)?;
    worlds.find_world(alloc, model, modes, seen)
}

/// The first state in mode order that extends the modes and has a world in which the formula is false, with its first
/// such world in value order. None comes exactly where the formula follows from the modes. The error is out of memory.
pub fn find_counter(
    alloc: Global,
    model: &Model,
    modes: &Cube,
    formula: &Formula,
) -> Result<Option<Found>, AllocError>
    requires modes { All (λ p. HasMode model.now p.item p.value) modes.now }
    requires formula { IsTrue (is_within (length model.now.components) (length model.now.variables)
        formula.now) }
    ensures first { IfOk result (IsFirstFound (Counters model.now modes.now formula.now)) }
    ensures follows { IfOk result (λ o. IsNone o → Follows model.now modes.now formula.now) }
{
    let worlds = Worlds::of(alloc, model)?;
    let rules = Rules {
        alloc,
        model,
        worlds: &worlds,
    };
    counter(&rules, modes, formula)
}

/// The variables of the set that have one value in all worlds of the state, each with that value, rising. The error is out
/// of memory.
pub fn forced(alloc: Global, model: &Model, state: &State, vars: VarSet) -> Result<Seen, AllocError>
    requires state { IsState model.now state.now.modes }
    requires world { HasWorld model.now state.now.modes }
    ensures forced { IfOk result (λ r. AreForced model.now state.now.modes vars r.pairs) }
    ensures values { IfOk result (λ r. All (λ p. HasValue model.now p.item p.value) r.pairs) }
{
    let worlds = Worlds::of(alloc, model)?;
    worlds.forced(alloc, model, state, vars)
}
