//! The steps that end a comparison.

ghost use Rattle.std.specs.Prelude.{◌≡◌, false, IfOk};
ghost use Rattle.std.specs.Option.{option_map};
ghost use Rattle.text_base.specs.Lexemes.{comma, is_lexeme, lexeme_of};
ghost use Rattle.formula_syntax.specs.FormulaParser.{state_of, compared, compared_step, followed_step};

use crate::atom::{Atom, among};
use crate::formula_parser::FormulaParser;
use crate::lookup::with_value;
use crate::read_part::{ReadPart, negated};
use crate::transitions::factor_step;
use cca_base::Model;
use std::alloc::{AllocError, Global};
use text_base::{Kind, Token, is_lexeme, is_name_word};

/// The atom, or not the atom.
fn compared(alloc: Global, atom: Atom, differs: bool) -> Result<ReadPart, AllocError>
    ensures { IfOk result (λ r. r ≡ compared atom differs) }
{
    if differs {
        negated(alloc, among(atom))
    } else {
        Ok(among(atom))
    }
}

/// Behind `=` or `!=`.
pub fn compared_step(
    alloc: Global,
    model: &Model,
    strict: bool,
    machine: FormulaParser,
    atom: Atom,
    differs: bool,
    token: &Token,
) -> Result<Option<FormulaParser>, AllocError>
    ensures { IfOk result (λ r.
        option_map state_of r ≡ compared_step strict model.now (state_of machine) atom differs
        (lexeme_of token.now)) }
{
    if !is_name_word(token) {
        return Ok(None);
    }
    let factor = compared(alloc, with_value(model, strict, atom, token.text), differs)?;
    let next = factor_step(alloc, machine, factor)?;
    Ok(Some(next))
}

/// Behind a value in braces, where no comma comes.
pub fn followed_step(
    alloc: Global,
    machine: FormulaParser,
    atom: Atom,
    token: &Token,
) -> Result<Option<FormulaParser>, AllocError>
    requires { is_lexeme comma (lexeme_of token.now) ≡ false }
    ensures { IfOk result (λ r.
        option_map state_of r ≡ followed_step (state_of machine) atom (lexeme_of token.now)) }
{
    if is_lexeme(token, Kind::Symbol, b"}") {
        let next = factor_step(alloc, machine, among(atom))?;
        Ok(Some(next))
    } else {
        Ok(None)
    }
}
