//! Marks as at the start.

ghost use Rattle.std.specs.Prelude.{◌≡◌, ◌≤◌, length};
ghost use Rattle.control_program.specs.Places.{IsCleared, marked};

use crate::nodes::{Mark, Node, fresh_mark};
use cca_base::List;

/// Gives the nodes from one place up to another the marks of the start.
pub(crate) fn clear(nodes: &[Node], marks: &mut List<Mark>, from: usize, to: usize)
    requires nodes { to ≤ length nodes.now }
    requires marks { to ≤ length marks.old }
    ensures cleared { IsCleared from to (marked nodes.now marks.old) (marked nodes.now marks.new) }
    ensures all { length marks.new ≡ length marks.old }
{
    for at in from..to {
        marks.set(at, fresh_mark(&nodes[at]));
    }
}
