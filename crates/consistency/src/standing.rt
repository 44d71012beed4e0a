//! Whether pairs stand in values.

ghost use Rattle.std.specs.Prelude.{◌↔◌, IsTrue};
ghost use Rattle.cca_base.specs.Prelude.{Extends};

use cca_base::Pair;

/// Whether each pair's value is the one that stands at its place.
pub fn stand_in(pairs: &[Pair], values: &[u8]) -> bool
    ensures { IsTrue result ↔ Extends values.now pairs.now }
{
    for pair in pairs {
        let item = pair.item as usize;
        if item >= values.len() || values[item] != pair.value {
            return false;
        }
    }
    true
}
