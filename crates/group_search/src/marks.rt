//! Marks on components.

ghost use Rattle.std.specs.Prelude.{◌≡◌, ◌<◌, All, length};

use cca_base::{List, Pair};

/// No component is marked any more.
pub(crate) fn clear(marks: &mut List<u16>)
    ensures { length marks.new ≡ length marks.old }
{
    for at in 0..marks.len() {
        marks.set(at, 0);
    }
}

/// Marks the components of the pairs.
pub(crate) fn mark(marks: &mut List<u16>, components: &[u16], pairs: &[Pair])
    requires places { All (λ p. p.item < length components.now) pairs.now }
    requires components { All (λ c. c < length marks.old) components.now }
    ensures { length marks.new ≡ length marks.old }
{
    for pair in pairs {
        marks.set(components[pair.item as usize] as usize, 1);
    }
}

/// No component of the group is marked any more.
pub(crate) fn unmark(marks: &mut List<u16>, names: &[u16], group: u16)
    requires { length names.now ≡ length marks.old }
    ensures { length marks.new ≡ length marks.old }
{
    for c in 0..names.len() {
        if names[c] == group {
            marks.set(c, 0);
        }
    }
}
