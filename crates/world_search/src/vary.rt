//! Other values than those at hand.

ghost use Rattle.std.specs.Prelude.{◌≡◌, length};

use crate::choose::least;
use crate::words::without;

/// Puts the least other value that is left, where there is one, in the place of each one at hand.
pub fn vary_from(start: &[u64], world: &mut [u8])
    requires { length world.old ≡ length start.now }
    ensures { length world.new ≡ length world.old }
{
    for v in 0..start.len() {
        let others = without(start[v], world[v]);
        if others != 0 {
            world[v] = least(others);
        }
    }
}
