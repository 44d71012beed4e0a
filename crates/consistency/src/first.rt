//! The first world: subject by subject the least value is sought with which there still is one.

ghost use Rattle.std.specs.Prelude.{◌≡◌, ◌≢◌, [], ◌∷◌, ◌++◌, ◌<◌, true, false, length, slice_index};
ghost use Rattle.std.specs.Prelude.{IfOk, OnOk};
ghost use Rattle.cca_base.specs.declared.limits.TheConstants.{MAX_CHOICES};
ghost use Rattle.consistency.specs.Lowest.{IsLowest};
ghost use Rattle.consistency.specs.Search.{EachWorldWith, IsFirstOrNone};
ghost use Rattle.world_search.specs.Assumed.{AreAsked};
ghost use Rattle.world_search.specs.Spaces.{IsSpace, base_in, world_in};
ghost use Rattle.world_search.specs.Worlds.{HasAll, IsSolution};

use cca_base::{List, Pair};
use std::alloc::{AllocError, Global};
use world_search::{Answer, Problem, Space, has_value};

/// Whether some world with the pairs has one more. If so that is put behind them, and such a world is at hand from now
/// on. The error is out of memory.
fn is_put(
    problem: &Problem,
    space: &mut Space,
    pairs: &mut List<Pair>,
    pair: Pair,
) -> Result<bool, AllocError>
    requires space { IsSpace problem.now space.old }
    requires asked { AreAsked (length problem.now.sizes) pairs.old }
    requires subject { pair.item < length problem.now.sizes }
    requires value { pair.value < MAX_CHOICES }
    ensures space { IsSpace problem.now space.new }
    ensures base { base_in space.new ≡ base_in space.old }
    ensures put { IfOk result (λ is. is ≡ true → pairs.new ≡ pairs.old ++ pair ∷ []) }
    ensures world { IfOk result (λ is. is ≡ true →
        IsSolution problem.now.clauses (base_in space.old) (world_in space.new)) }
    ensures has { IfOk result (λ is. is ≡ true → HasAll pairs.new (world_in space.new)) }
    ensures same { IfOk result (λ is. is ≡ false → pairs.new ≡ pairs.old) }
    ensures none { IfOk result (λ is. is ≡ false →
        EachWorldWith problem.now.clauses (base_in space.old) pairs.old
        (λ xs. slice_index xs pair.item ≢ pair.value)) }
{
    pairs.push(pair)?;
    match problem.ask(space, pairs.as_slice()) {
        Answer::Agrees => Ok(true),
        Answer::Clash(_) => {
            pairs.pop();
            Ok(false)
        }
    }
}

/// Lowers the world to one with the pairs and the least value that such worlds have at the subject, whose pair is put
/// behind the others. The error is out of memory.
fn put_lowest(
    problem: &Problem,
    space: &mut Space,
    pairs: &mut List<Pair>,
    subject: u16,
    world: &mut [u8],
) -> Result<(), AllocError>
    requires space { IsSpace problem.now space.old }
    requires asked { AreAsked (length problem.now.sizes) pairs.old }
    requires subject { subject < length problem.now.sizes }
    requires world { IsSolution problem.now.clauses (base_in space.old) world.old }
    requires has { HasAll pairs.old world.old }
    ensures space { IsSpace problem.now space.new }
    ensures base { base_in space.new ≡ base_in space.old }
    ensures long { length world.new ≡ length world.old }
    ensures asked { OnOk result (AreAsked (length problem.now.sizes) pairs.new) }
    ensures lowest { OnOk result
        (IsLowest problem.now.clauses (base_in space.old) pairs.old subject world.new pairs.new) }
{
    let left = problem.left(space, subject as usize);
    let value = world[subject as usize];
    for lower in 0..value {
        let pair = Pair {
            item: subject,
            value: lower,
        };
        if has_value(left, lower) && is_put(problem, space, pairs, pair)? {
            world.copy_from_slice(space.world());
            return Ok(());
        }
    }
    pairs.push(Pair {
        item: subject,
        value,
    })
}

/// The first world of what each subject may be. None comes exactly where there is none. The error is out of memory.
pub fn first_world(
    alloc: Global,
    problem: &Problem,
    space: &mut Space,
) -> Result<Option<List<u8>>, AllocError>
    requires space { IsSpace problem.now space.old }
    ensures { IfOk result (IsFirstOrNone problem.now.clauses (base_in space.old)) }
{
    match problem.ask(space, &[]) {
        Answer::Agrees => {}
        Answer::Clash(_) => return Ok(None),
    }
    let mut world = Vec::from_slice(alloc, space.world())?;
    let mut pairs = List::new(alloc);
    for subject in 0..world.len() {
        put_lowest(problem, space, &mut pairs, subject as u16, &mut world)?;
    }
    Ok(Some(List::of(world)))
}
