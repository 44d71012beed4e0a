//! The steps of the parser of formulas that read a factor or end one.

ghost use Rattle.std.specs.Prelude.{◌≡◌, ◌+◌, ◌<◌, ◌^◌, codes, false, None, Some, IfOk};
ghost use Rattle.std.specs.Option.{option_map};
ghost use Rattle.cca_base.specs.Prelude.{PlantModel};
ghost use Rattle.text_base.specs.Lexemes.{is_lexeme, is_name_word, lexeme_of, word};
ghost use Rattle.formula_syntax.specs.declared.read_part.ReadPart.TheVariants.{Sound};
ghost use Rattle.formula_syntax.specs.FormulaParser.{state_of, factor_step, operand_step, operator_step, place_behind, step};

use crate::atom_steps::{compared_step, followed_step};
use crate::formula_parser::{Connective, Expected, FormulaParser};
use crate::read_part::ReadPart;
use crate::transitions::{close_step, factor_step, link_step, not_step, open_step, or_step};
use cca_base::{Formula, Model};
use std::alloc::{AllocError, Global};
use text_base::{Kind, Token, is_lexeme};

/// Behind a formula that has no parts.
fn constant_step(
    alloc: Global,
    machine: FormulaParser,
    formula: Formula,
) -> Result<Option<FormulaParser>, AllocError>
    ensures { IfOk result (λ r.
        option_map state_of r ≡ Some (factor_step (state_of machine) (Sound formula 1))) }
{
    let factor = ReadPart::Sound { formula, depth: 1 };
    let next = factor_step(alloc, machine, factor)?;
    Ok(Some(next))
}

/// Where a factor has to begin that is no comparison.
fn operand_step(
    alloc: Global,
    machine: FormulaParser,
    token: &Token,
) -> Result<Option<FormulaParser>, AllocError>
    requires few { machine.level.nots + 1 < 2 ^ 64 }
    requires no_name { is_name_word (lexeme_of token.now) ≡ false }
    ensures { IfOk result (λ r.
        (m : PlantModel) → option_map state_of r
        ≡ operand_step m (state_of machine) (lexeme_of token.now)) }
{
    if is_lexeme(token, Kind::Word, b"not") {
        Ok(Some(not_step(machine)))
    } else if is_lexeme(token, Kind::Symbol, b"(") {
        let next = open_step(machine)?;
        Ok(Some(next))
    } else if is_lexeme(token, Kind::Word, b"true") {
        constant_step(alloc, machine, Formula::True)
    } else if is_lexeme(token, Kind::Word, b"false") {
        constant_step(alloc, machine, Formula::False)
    } else {
        Ok(None)
    }
}

/// Behind a factor, where no `and` comes.
fn operator_step(
    alloc: Global,
    machine: FormulaParser,
    token: &Token,
) -> Result<Option<FormulaParser>, AllocError>
    requires { is_lexeme (word (codes "and")) (lexeme_of token.now) ≡ false }
    ensures { IfOk result (λ r.
        option_map state_of r ≡ operator_step (state_of machine) (lexeme_of token.now)) }
{
    if is_lexeme(token, Kind::Word, b"or") {
        or_step(alloc, machine)
    } else if is_lexeme(token, Kind::Word, b"implies") {
        link_step(alloc, machine, Connective::Implies)
    } else if is_lexeme(token, Kind::Word, b"iff") {
        link_step(alloc, machine, Connective::Iff)
    } else if is_lexeme(token, Kind::Symbol, b")") {
        close_step(alloc, machine)
    } else {
        Ok(None)
    }
}

/// Behind a token that changes more than what has to come next.
#[tactic(auto, unfolding(crate::specs::FormulaParser::step))]
pub fn step(
    alloc: Global,
    model: &Model,
    strict: bool,
    machine: FormulaParser,
    token: &Token,
) -> Result<Option<FormulaParser>, AllocError>
    requires few { machine.level.nots + 1 < 2 ^ 64 }
    requires more { place_behind strict model.now machine.place (lexeme_of token.now) ≡ None }
    ensures { IfOk result (λ r.
        option_map state_of r ≡ step strict model.now (state_of machine) (lexeme_of token.now)) }
{
    let place = machine.place;
    match place {
        Expected::Operand => operand_step(alloc, machine, token),
        Expected::Operator => operator_step(alloc, machine, token),
        Expected::Compared { atom, differs } => compared_step(
            alloc, model, strict, machine, atom, differs, token,
        ),
        Expected::Followed(atom) => followed_step(alloc, machine, atom, token),
        Expected::Named(_) | Expected::Opened(_) | Expected::Listed(_) => Ok(None),
    }
}
