//! Where the parser of formulas goes with a token.

ghost use Rattle.std.specs.Prelude.{◌≡◌, ◌+◌, ◌<◌, ◌^◌, reverse, IfOk};
ghost use Rattle.std.specs.Option.{option_map};
ghost use Rattle.formula_syntax.specs.FormulaParser.{fresh, state_of, or_step, link_step, close_step, open_step, factor_step, not_step};

use crate::formula_parser::{Connective, Expected, FormulaParser, Level, Side};
use crate::level::{cases_read, completed, level_read, side_read};
use crate::read_part::{ReadPart, enclosed};
use cca_base::List;
use std::alloc::{AllocError, Global};

/// An empty level.
pub fn fresh() -> Level
    ensures { result ≡ fresh }
{
    Level {
        left: None,
        any: None,
        all: None,
        nots: 0,
    }
}

/// The parser at this place.
fn parser_at(outer: List<Level>, level: Level, place: Expected) -> FormulaParser
    ensures { state_of result ≡ record { outer = reverse outer; level = level; place = place } }
{
    FormulaParser {
        outer,
        level,
        place,
    }
}

/// Behind a factor.
pub fn factor_step(
    alloc: Global,
    machine: FormulaParser,
    factor: ReadPart,
) -> Result<FormulaParser, AllocError>
    ensures { IfOk result (λ r. state_of r ≡ factor_step (state_of machine) factor) }
{
    let level = completed(alloc, machine.level, factor)?;
    Ok(parser_at(machine.outer, level, Expected::Operator))
}

/// Behind one more word `not`.
pub fn not_step(machine: FormulaParser) -> FormulaParser
    requires { machine.level.nots + 1 < 2 ^ 64 }
    ensures { state_of result ≡ not_step (state_of machine) }
{
    let mut machine = machine;
    machine.level.nots += 1;
    machine
}

/// Behind an opening parenthesis.
pub fn open_step(machine: FormulaParser) -> Result<FormulaParser, AllocError>
    ensures { IfOk result (λ r. state_of r ≡ open_step (state_of machine)) }
{
    let mut outer = machine.outer;
    outer.push(machine.level)?;
    Ok(parser_at(outer, fresh(), Expected::Operand))
}

/// Behind `or`.
pub fn or_step(alloc: Global, machine: FormulaParser) -> Result<Option<FormulaParser>, AllocError>
    ensures { IfOk result (λ r. option_map state_of r ≡ or_step (state_of machine)) }
{
    let (left, cases) = cases_read(alloc, machine.level)?;
    match cases {
        None => Ok(None),
        Some(any) => {
            let level = Level {
                left,
                any: Some(any),
                all: None,
                nots: 0,
            };
            Ok(Some(parser_at(machine.outer, level, Expected::Operand)))
        }
    }
}

/// Behind `implies` or `iff`.
pub fn link_step(
    alloc: Global,
    machine: FormulaParser,
    link: Connective,
) -> Result<Option<FormulaParser>, AllocError>
    ensures { IfOk result (λ r. option_map state_of r ≡ link_step (state_of machine) link) }
{
    let (left, side) = side_read(alloc, machine.level)?;
    match left {
        Some(_) => Ok(None),
        None => match side {
            None => Ok(None),
            Some(reading) => {
                let level = Level {
                    left: Some(Side { link, reading }),
                    any: None,
                    all: None,
                    nots: 0,
                };
                Ok(Some(parser_at(machine.outer, level, Expected::Operand)))
            }
        },
    }
}

/// Behind a closing parenthesis.
pub fn close_step(
    alloc: Global,
    machine: FormulaParser,
) -> Result<Option<FormulaParser>, AllocError>
    ensures { IfOk result (λ r. option_map state_of r ≡ close_step (state_of machine)) }
{
    let mut outer = machine.outer;
    match outer.pop() {
        None => Ok(None),
        Some(around) => match level_read(alloc, machine.level)? {
            None => Ok(None),
            Some(reading) => {
                let level = completed(alloc, around, enclosed(reading))?;
                Ok(Some(parser_at(outer, level, Expected::Operator)))
            }
        },
    }
}
