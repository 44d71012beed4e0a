//! Which components' cells stay right for other classes: those whose own sets are the same, where each way of their moves
//! is inside both classes or inside neither.

ghost use Rattle.std.specs.Prelude.{◌≡◌, ◌<◌, IsTrue, All, length};
ghost use Rattle.policy_tables.specs.Keeping.{AgreeOn, HasSameSets, AreKeptTo, AreKept};
ghost use Rattle.reversibility.specs.ClassParts.{in_row};

use cca_base::{Cube, List, ValueSet};
use reversibility::{Classes, is_inside};

/// True only where each of the cubes is inside both sets or inside neither.
fn agree(cubes: &[Cube], one: &[ValueSet], other: &[ValueSet]) -> bool
    requires one { All (λ cube. All (λ p. p.item < length one.now) cube) cubes.now }
    requires other { All (λ cube. All (λ p. p.item < length other.now) cube) cubes.now }
    ensures { IsTrue result → AgreeOn (in_row one.now) (in_row other.now) cubes.now }
{
    for cube in cubes {
        if is_inside(cube.as_slice(), one) != is_inside(cube.as_slice(), other) {
            return false;
        }
    }
    true
}

/// True only where the component's class and the broken modes of its open chain are the same.
fn has_same_sets(one: &Classes, other: &Classes, c: usize) -> bool
    requires model { one.now.compiled ≡ other.now.compiled }
    requires within { c < length other.now.compiled.model.components }
    ensures { IsTrue result → HasSameSets one.now other.now c }
{
    one.rows()[c] == other.rows()[c] && one.chains()[c] == other.chains()[c]
}

/// Flags components: what is flagged has the same sets.
fn flag_same(one: &Classes, other: &Classes, flags: &mut List<bool>)
    requires model { one.now.compiled ≡ other.now.compiled }
    requires full { length flags.old ≡ length other.now.compiled.model.components }
    ensures { AreKeptTo one.now other.now flags.new 0 }
{
    for c in 0..other.rows().len() {
        flags.set(c, has_same_sets(one, other, c));
    }
}

/// Flags components: what is flagged stays right, so where its cells are right by the one, they are by the other.
pub(crate) fn flag_kept(one: &Classes, other: &Classes, flags: &mut List<bool>)
    requires model { one.now.compiled ≡ other.now.compiled }
    requires full { length flags.old ≡ length other.now.compiled.model.components }
    ensures { AreKept one.now other.now flags.new }
{
    flag_same(one, other, flags);
    let compiled = other.compiled();
    let moves = compiled.model().moves();
    for i in 0..moves.len() {
        let c = moves.get(i).component as usize;
        if *flags.get(c) && !agree(compiled.ways().get(i).as_slice(), one.rows(), other.rows()) {
            flags.set(c, false);
        }
    }
}
