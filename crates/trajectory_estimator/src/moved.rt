//! Where a command's own moves send a component.

ghost use Rattle.std.specs.Prelude.{IfSome, IsNone};
ghost use Rattle.cca_base.specs.Prelude.{WellFormed};
ghost use Rattle.trajectory_estimator.specs.Steps.{IsOwnTarget, NoOwn};

use cca_base::Model;

/// Where the command's own move leads the component from the mode. None comes exactly where it has no such move.
pub(crate) fn own_target(
    model: &Model,
    component: u16,
    command: Option<u16>,
    from: u8,
) -> Option<u8>
    ensures some { IfSome result (IsOwnTarget model.now component command from) }
    ensures none { IsNone result → NoOwn model.now component command from }
    ensures well_formed { WellFormed model.now }
{
    let moves = model.moves();
    let command = command?;
    if command as usize >= model.commands().len() {
        return None;
    }
    for number in model.moves_by(command) {
        let own = moves.get(*number as usize);
        if own.component == component && own.source == from {
            return Some(own.target);
        }
    }
    None
}
