//! Lines with moves and repairs.

ghost use Rattle.std.specs.Prelude.{◌≡◌, true, map};
ghost use Rattle.text_base.specs.Lexemes.{lexeme_of};
ghost use Rattle.model_syntax.specs.Items.{shown_ends};
ghost use Rattle.model_syntax.specs.Lines.{is_bare_name, AnswersModel, IsNextOfText, move_next, taken_move};
ghost use Rattle.model_syntax.specs.Reader.{IsDeclared};

use crate::checks::ends_of;
use crate::faults::move_code;
use crate::indexed_model::IndexedModel;
use crate::item::Ends;
use cca_base::codes::{MALFORMED, NAME_UNKNOWN};
use cca_base::{Move, Stop};
use formula_syntax::{ReadPart, read_strictly};
use std::alloc::Global;
use text_base::Token;

/// Adds a move whose guard is sound, if no code applies to it.
fn take_move(model: &mut IndexedModel, x: Move, command: &[u8]) -> Result<(), Stop>
    requires { IsDeclared model.old x command.now }
    ensures { AnswersModel result model.old model.new (λ next.
        next ≡ taken_move model.old x command.now) }
{
    match move_code(model.model(), &x, command) {
        Some(code) => Err(Stop::refused(code)),
        None => {
            model.add_move(x, command)?;
            Ok(())
        }
    }
}

/// A line with a move or a repair.
pub fn move_line(
    alloc: Global,
    model: &mut IndexedModel,
    repair: bool,
    ends: Ends,
    command: &[u8],
    guard: &[Token],
) -> Result<(), Stop>
    requires { is_bare_name command.now ≡ true }
    ensures { AnswersModel result model.old model.new
        (IsNextOfText (map lexeme_of guard.now) (move_next model.old repair (shown_ends ends.entry)
        command.now)) }
{
    let Some(reading) = read_strictly(alloc, &model.named(), guard)? else {
        return Err(Stop::refused(MALFORMED));
    };
    let Some((component, source, target)) = ends_of(model, ends) else {
        return Err(Stop::refused(NAME_UNKNOWN));
    };
    match reading {
        ReadPart::Faulty(code) => Err(Stop::refused(code)),
        ReadPart::Sound { formula, depth: _ } => {
            let number = model.command_number(command);
            let x = Move {
                component,
                source,
                target,
                command: number,
                repair,
                guard: formula,
            };
            take_move(model, x, command)
        }
    }
}
