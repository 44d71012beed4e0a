//! A question in a model's words: whether some state that extends modes has a world that agrees with what is seen.

ghost use Rattle.std.specs.Prelude.{◌≡◌, ◌≤◌, [], length, take, All, None, Option};
ghost use Rattle.cca_base.specs.Prelude.{pairs_of, HasMode, HasValue, IsState, WellFormed};
ghost use Rattle.cca_base.specs.declared.formula.Formula.{Formula};
ghost use Rattle.cca_base.specs.declared.limits.TheConstants.{MAX_COMPONENTS};
ghost use Rattle.clause_form.specs.Formulas.{AreClausesOf};
ghost use Rattle.consistency.specs.Base.{IsBase};
ghost use Rattle.consistency.specs.Cores.{IsFitting, IsShowing};
ghost use Rattle.consistency.specs.Spaces.{IsWorldSpace};
ghost use Rattle.world_search.specs.Spaces.{base_in};

use crate::base::model_base;
use crate::pairs::put_pairs;
use crate::world_space::WorldSpace;
use cca_base::{Model, Pair, State};
use world_search::{Answer, Problem};

/// Writes what each subject may be, where components have these modes and variables these values.
pub fn put_base(
    model: &Model,
    problem: &Problem,
    modes: &[Pair],
    seen: &[Pair],
    space: &mut WorldSpace,
)
    requires of { (denied : Option Formula) × AreClausesOf model.now None denied problem.now }
    requires modes { All (λ p. HasMode model.now p.item p.value) modes.now }
    requires seen { All (λ p. HasValue model.now p.item p.value) seen.now }
    requires space { IsWorldSpace problem.now space.old }
    ensures space { IsWorldSpace problem.now space.new }
    ensures base { IsBase problem.now.sizes (length model.now.components) modes.now seen.now
        space.new.sets.items }
    ensures pairs { space.new.pairs ≡ space.old.pairs }
    ensures well_formed { WellFormed model.now }
{
    let sizes = &problem.clauses().sizes;
    model_base(model, sizes, modes, seen, &mut space.sets);
}

/// From now on components have these modes, and variables these values.
pub fn see(model: &Model, problem: &Problem, modes: &[Pair], seen: &[Pair], space: &mut WorldSpace)
    requires of { (denied : Option Formula) × AreClausesOf model.now None denied problem.now }
    requires modes { All (λ p. HasMode model.now p.item p.value) modes.now }
    requires seen { All (λ p. HasValue model.now p.item p.value) seen.now }
    requires space { IsWorldSpace problem.now space.old }
    ensures space { IsWorldSpace problem.now space.new }
    ensures base { IsBase problem.now.sizes (length model.now.components) modes.now seen.now
        (base_in space.new.search) }
    ensures pairs { space.new.pairs ≡ space.old.pairs }
    ensures well_formed { WellFormed model.now }
{
    put_base(model, problem, modes, seen, space);
    problem.see(&mut space.search, &space.sets);
}

/// From now on components have the modes of a state, whose pairs are put in the room for them.
pub fn see_state(
    model: &Model,
    problem: &Problem,
    modes: &[u8],
    room: &mut [Pair],
    space: &mut WorldSpace,
)
    requires of { AreClausesOf model.now None None problem.now }
    requires state { IsState model.now modes.now }
    requires few { length modes.now ≤ MAX_COMPONENTS }
    requires room { length room.old ≡ length modes.now }
    requires space { IsWorldSpace problem.now space.old }
    ensures space { IsWorldSpace problem.now space.new }
    ensures room { length room.new ≡ length room.old }
    ensures base { IsBase problem.now.sizes (length model.now.components) (pairs_of modes.now) []
        (base_in space.new.search) }
{
    put_pairs(modes, room);
    see(model, problem, room, &[], space);
}

/// Whether some state that extends the modes has a world that agrees with what is seen, and if not, which components
/// are to blame. The problem may say of a formula besides that it is false.
pub fn ask(
    model: &Model,
    problem: &Problem,
    modes: &[Pair],
    seen: &[Pair],
    space: &mut WorldSpace,
) -> Answer
    requires of { (denied : Option Formula) × AreClausesOf model.now None denied problem.now }
    requires modes { All (λ p. HasMode model.now p.item p.value) modes.now }
    requires seen { All (λ p. HasValue model.now p.item p.value) seen.now }
    requires space { IsWorldSpace problem.now space.old }
    ensures space { IsWorldSpace problem.now space.new }
    ensures answer { (denied : Option Formula) → AreClausesOf model.now None denied problem.now →
        IsFitting model.now modes.now seen.now denied result }
{
    see(model, problem, &[], seen, space);
    problem.ask(&mut space.search, modes)
}

/// Whether some world of the state agrees with what is seen, and if not, which components are to blame. The state's
/// pairs stand in the room for pairs then.
pub fn ask_state(
    model: &Model,
    problem: &Problem,
    state: &State,
    seen: &[Pair],
    space: &mut WorldSpace,
) -> Answer
    requires of { AreClausesOf model.now None None problem.now }
    requires state { IsState model.now state.now.modes }
    requires seen { All (λ p. HasValue model.now p.item p.value) seen.now }
    requires space { IsWorldSpace problem.now space.old }
    ensures space { IsWorldSpace problem.now space.new }
    ensures pairs { take (length state.now.modes) space.new.pairs.items ≡ pairs_of state.now.modes }
    ensures answer { IsShowing model.now state.now.modes seen.now result }
{
    see(model, problem, &[], seen, space);
    put_pairs(state.modes.as_slice(), &mut space.pairs);
    let pairs = &space.pairs.as_slice()[..state.modes.len()];
    problem.ask(&mut space.search, pairs)
}
