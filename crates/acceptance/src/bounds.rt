//! The bounds of all components, causes first, up to the first with which their sum is too great.

ghost use Rattle.std.specs.Prelude.{◌≡◌, ◌+◌, ◌-◌, ◌*◌, ◌<◌, ◌≤◌, All, IfOk, length, slice_index, sum_by};
ghost use Rattle.cca_base.specs.Prelude.{IsEffectsFirst};
ghost use Rattle.cca_base.specs.declared.limits.TheConstants.{MAX_CHOICES, MAX_ROWS};
ghost use Rattle.causal_graph.specs.Laws.{AreNeedsOf};
ghost use Rattle.acceptance.specs.Depths.{AreBoundsOrDeep};

use cca_base::{List, MAX_BOUND, Model};
use std::alloc::{AllocError, Global};

/// What adding up the bounds comes to.
pub enum Bounds {
    /// The bound of each component. Their sum is at most `MAX_BOUND`.
    Fit(List<u64>),
    /// Causes first, this is the first component at which the sum passes `MAX_BOUND`.
    PassAt(u16),
}

/// One less than the modes, times one more than the bounds of what is needed.
fn bound_of(modes: usize, needs: &[u16], bounds: &[u64]) -> u128
    requires some { 1 ≤ modes }
    requires few { modes ≤ MAX_CHOICES }
    requires short { length needs.now ≤ MAX_ROWS }
    requires within { All (λ u. u < length bounds.now) needs.now }
    ensures { result ≡ (modes - 1) * (1 + sum_by (slice_index bounds.now) needs.now) }
{
    let mut sum: u128 = 1;
    for u in needs {
        sum += bounds[*u as usize] as u128;
    }
    (modes as u128 - 1) * sum
}

/// The bound of each component, or the first component, causes first, at which their sum passes `MAX_BOUND`. Row c of
/// `needs` lists what c needs, and `order` has effects before their causes.
pub fn bounds_of(
    alloc: Global,
    model: &Model,
    needs: &List<List<u16>>,
    order: &List<u16>,
) -> Result<Bounds, AllocError>
    requires needs { AreNeedsOf model.now needs.now }
    requires order { IsEffectsFirst model.now order.now }
    ensures { IfOk result (AreBoundsOrDeep model.now) }
{
    let mut bounds: Vec<u64> = vec![in alloc; 0; model.components().len()]?;
    let mut sum: u64 = 0;
    for i in (0..order.len()).rev() {
        let c = *order.get(i) as usize;
        let modes = model.components().get(c).modes.len();
        let bound = bound_of(modes, needs.get(c).as_slice(), bounds.as_slice());
        if bound > (MAX_BOUND - sum) as u128 {
            return Ok(Bounds::PassAt(c as u16));
        }
        bounds[c] = bound as u64;
        sum += bound as u64;
    }
    Ok(Bounds::Fit(List::of(bounds)))
}
