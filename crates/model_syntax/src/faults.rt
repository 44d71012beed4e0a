//! What may be wrong with a move.

ghost use Rattle.std.specs.Prelude.{◌≡◌, ◌&&◌, ◌||◌, not};
ghost use Rattle.std.specs.List.{list_any};
ghost use Rattle.cca_base.specs.Prelude.{is_broken, WellFormed};
ghost use Rattle.model_syntax.specs.Codes.{leads_to, leads_unmarked, leaves_unmarked, is_ambiguous, is_move_into_broken, is_repair_into_broken, is_into_broken, is_repair_cycle, is_unmarked_exit, mends_elsewhere, mends_twice, sound_move_code};

use crate::words::is_long;
use cca_base::codes::{AMBIGUOUS, INTO_BROKEN, LIMIT, REPAIR_CYCLE, TWO_MENDS, UNMARKED_EXIT};
use cca_base::{MAX_MOVES, Model, Move};

/// Whether another move has the command, and is of another component or leaves the same mode.
fn is_ambiguous(model: &Model, x: &Move) -> bool
    ensures { result ≡ is_ambiguous model.now.moves x.now }
{
    if x.command as usize >= model.commands().len() {
        return false;
    }
    let moves = model.moves();
    for number in model.moves_by(x.command) {
        let y = moves.get(*number as usize);
        if y.component != x.component || y.source == x.source {
            return true;
        }
    }
    false
}

/// Whether a move leads to the mode.
fn leads_to(moves: &[Move], component: u16, mode: u8) -> bool
    ensures { result ≡ list_any (leads_to component mode) moves.now }
{
    moves
        .iter()
        .any(|y| y.component == component && y.target == mode)
}

/// Whether an ordinary move leaves the mode.
fn leaves_unmarked(moves: &[Move], component: u16, mode: u8) -> bool
    ensures { result ≡ list_any (leaves_unmarked component mode) moves.now }
{
    moves.iter().any(|y| !y.repair && (y.component == component && y.source == mode))
}

/// Whether an ordinary move leads to the mode.
fn leads_unmarked(moves: &[Move], component: u16, mode: u8) -> bool
    ensures { result ≡ list_any (leads_unmarked component mode) moves.now }
{
    moves.iter().any(|y| !y.repair && (y.component == component && y.target == mode))
}

/// Whether an ordinary move leads to a broken mode, or a repair makes a mode broken to which one leads.
fn is_move_into_broken(model: &Model, x: &Move) -> bool
    ensures { result ≡ is_move_into_broken model.now.moves x.now }
{
    if x.repair {
        leads_unmarked(model.moves().as_slice(), x.component, x.source)
    } else {
        model.broken(x.component, x.target)
    }
}

/// Whether a repair leads to a broken mode, or makes a mode broken to which a move or repair leads, or itself.
#[tactic(auto, using(crate::proofs::GrowthByMove::leads_to_push))]
fn is_repair_into_broken(model: &Model, x: &Move) -> bool
    ensures { result ≡ is_repair_into_broken model.now.moves x.now }
{
    x.repair
        && (model.broken(x.component, x.target)
            || (leads_to(model.moves().as_slice(), x.component, x.source) || x.target == x.source))
}

/// Whether the move leads into a broken mode by the rules of the model's version.
fn is_into_broken(model: &Model, x: &Move) -> bool
    ensures { result ≡ is_into_broken model.now x.now }
{
    is_move_into_broken(model, x) || (model.version() == 1 && is_repair_into_broken(model, x))
}

/// Whether the repair's source stands in the chain that the earlier repairs give to its target.
#[tactic(auto, using(crate::proofs::ChainTests::chains_are_tested))]
fn is_repair_cycle(model: &Model, x: &Move) -> bool
    ensures { result ≡ is_repair_cycle model.now x.now }
{
    model.version() != 1 && (x.repair && model.is_in_chain(x.component, x.target, x.source))
}

/// Whether an ordinary move leaves a broken mode, or a repair leaves a mode that an ordinary move leaves.
fn is_unmarked_exit(model: &Model, x: &Move) -> bool
    ensures { result ≡ is_unmarked_exit model.now.moves x.now }
{
    if x.repair {
        leaves_unmarked(model.moves().as_slice(), x.component, x.source)
    } else {
        model.broken(x.component, x.source)
    }
}

/// Whether a repair of the mode leads to another mode than this.
fn is_mended_elsewhere(model: &Model, component: u16, mode: u8, mended: u8) -> bool
    ensures { result ≡ list_any (mends_elsewhere component mode mended) model.now.moves }
{
    let _moves = model.moves();
    match model.next_mode(component, mode) {
        Some(next) => next != mended,
        None => false,
    }
}

/// Whether an earlier repair of the repair's source leads to another mode.
fn mends_twice(model: &Model, x: &Move) -> bool
    ensures { result ≡ mends_twice model.now.moves x.now }
{
    x.repair && is_mended_elsewhere(model, x.component, x.source, x.target)
}

/// The least code of a move between modes that are known, and whose guard is sound.
pub fn move_code(model: &Model, x: &Move, command: &[u8]) -> Option<u8>
    ensures code { result ≡ sound_move_code model.now x.now command.now }
    ensures well_formed { WellFormed model.now }
{
    let count = model.moves().len();
    if is_long(command) || count >= MAX_MOVES {
        Some(LIMIT)
    } else if is_ambiguous(model, x) {
        Some(AMBIGUOUS)
    } else if is_into_broken(model, x) {
        Some(INTO_BROKEN)
    } else if is_unmarked_exit(model, x) {
        Some(UNMARKED_EXIT)
    } else if mends_twice(model, x) {
        Some(TWO_MENDS)
    } else if is_repair_cycle(model, x) {
        Some(REPAIR_CYCLE)
    } else {
        None
    }
}
