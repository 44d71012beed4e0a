//! Least costs.

ghost use Rattle.std.specs.Prelude.{◌≡◌};
ghost use Rattle.cca_base.specs.LeastCosts.{lesser_of};

/// The lesser of a cost and one that may be known.
pub fn lesser(known: Option<u32>, cost: u32) -> u32
    ensures { result ≡ lesser_of known cost }
{
    match known {
        None => cost,
        Some(least) => least.min(cost),
    }
}
