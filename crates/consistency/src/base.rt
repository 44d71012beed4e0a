//! What each subject may be, where components have given modes and variables given values.

ghost use Rattle.std.specs.Prelude.{◌≡◌, ◌&&◌, ◌++◌, ℕ, ◌<◌, ◌≤◌, nat_lt, length, slice_index, All};
ghost use Rattle.cca_base.specs.Prelude.{has, mode_counts, value_counts, HasMode, HasValue, WellFormed};
ghost use Rattle.cca_base.specs.declared.limits.TheConstants.{MAX_CHOICES};
ghost use Rattle.consistency.specs.Base.{allows, ArePairs, IsBase};
ghost use Rattle.world_search.specs.Assumed.{AreAsked};

use cca_base::{Model, Pair, ValueSet};
use clause_form::Sizes;

/// Writes all values of each subject.
fn fill(sizes: &Sizes, sets: &mut [ValueSet])
    requires { length sets.old ≡ length sizes.now }
    ensures few { All (λ n. n ≤ MAX_CHOICES) sizes.now }
    ensures values { (d v : ℕ) → d < length sizes.now →
        has (slice_index sets.new d) v ≡ nat_lt v (slice_index sizes.now d) }
{
    for (at, size) in sizes.as_slice().iter().enumerate() {
        sets[at] = ValueSet::full(*size);
    }
}

/// Leaves the subject of each pair, counted from the first one's number, its value alone.
fn restrict(sets: &mut [ValueSet], first: usize, pairs: &[Pair])
    requires pairs { ArePairs (length sets.old) first pairs.now }
    ensures { (d v : ℕ) → d < length sets.old →
        has (slice_index sets.new d) v
        ≡ (has (slice_index sets.old d) v && allows first pairs.now d v) }
{
    for pair in pairs {
        let subject = first + pair.item as usize;
        sets[subject] = sets[subject].common(ValueSet::empty().with(pair.value));
    }
}

/// Writes the values that each subject may have, where components have these modes and variables these values.
fn base_of(sizes: &Sizes, components: usize, modes: &[Pair], seen: &[Pair], base: &mut [ValueSet])
    requires full { length base.old ≡ length sizes.now }
    requires modes { AreAsked (length sizes.now) modes.now }
    requires seen { ArePairs (length sizes.now) components seen.now }
    ensures { IsBase sizes.now components modes.now seen.now base.new }
{
    fill(sizes, base);
    restrict(base, 0, modes);
    restrict(base, components, seen);
}

/// Writes the values that each subject of the model may have, where components have these modes and variables these
/// values.
pub fn model_base(
    model: &Model,
    sizes: &Sizes,
    modes: &[Pair],
    seen: &[Pair],
    base: &mut [ValueSet],
)
    requires sizes { sizes.now ≡ mode_counts model.now ++ value_counts model.now }
    requires full { length base.old ≡ length sizes.now }
    requires modes { All (λ p. HasMode model.now p.item p.value) modes.now }
    requires seen { All (λ p. HasValue model.now p.item p.value) seen.now }
    ensures base { IsBase sizes.now (length model.now.components) modes.now seen.now base.new }
    ensures well_formed { WellFormed model.now }
{
    let components = model.components().len();
    base_of(sizes, components, modes, seen, base);
}
