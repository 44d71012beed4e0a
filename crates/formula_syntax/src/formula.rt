//! Formulas read from tokens, by operator precedence.

ghost use Rattle.std.specs.Prelude.{◌≡◌, Bool, true, false, map, IfOk};
ghost use Rattle.text_base.specs.Lexemes.{lexeme_of};
ghost use Rattle.formula_syntax.specs.FormulaParser.{start, state_of, ended, run};
ghost use Rattle.cca_base.specs.Prelude.{Answers, IsFormula, PlantModel};
ghost use Rattle.formula_syntax.specs.Grammar.{Whole, spelling};
ghost use Rattle.formula_syntax.specs.Meanings.{IsReadingOf, reading_of};
ghost use Rattle.formula_syntax.specs.Answers.{AnswerOneWay, IsFormulaOf};

use crate::formula_parser::{Expected, FormulaParser};
use crate::level::level_read;
use crate::named_model::NamedModel;
use crate::places::place_behind;
use crate::read_part::ReadPart;
use crate::steps::step;
use crate::transitions::fresh;
use cca_base::codes::MALFORMED;
use cca_base::{Formula, List, Model, Stop};
use std::alloc::{AllocError, Global};
use text_base::Token;

/// Nothing was read.
fn start(alloc: Global) -> FormulaParser
    ensures { state_of result ≡ start }
{
    FormulaParser {
        outer: List::new(alloc),
        level: fresh(),
        place: Expected::Operand,
    }
}

/// Behind the last token.
#[tactic(auto, unfolding(crate::specs::FormulaParser::ended))]
fn ended(alloc: Global, machine: FormulaParser) -> Result<Option<ReadPart>, AllocError>
    ensures { IfOk result (λ r. r ≡ ended (state_of machine)) }
{
    let FormulaParser {
        outer,
        level,
        place,
    } = machine;
    match place {
        Expected::Operator => {
            if outer.len() == 0 {
                level_read(alloc, level)
            } else {
                Ok(None)
            }
        }
        Expected::Operand
        | Expected::Named(_)
        | Expected::Compared {
            atom: _,
            differs: _,
        }
        | Expected::Opened(_)
        | Expected::Listed(_)
        | Expected::Followed(_) => Ok(None),
    }
}

/// Reads the tokens one after the other.
fn run(
    alloc: Global,
    model: &NamedModel,
    strict: bool,
    tokens: &[Token],
) -> Result<Option<ReadPart>, AllocError>
    ensures { IfOk result (λ r. r ≡ run strict model.now start (map lexeme_of tokens.now)) }
{
    let mut machine = start(alloc);
    'tokens: for token in tokens {
        match place_behind(model, strict, machine.place, token) {
            Some(place) => machine.place = place,
            None => match step(alloc, model.model(), strict, machine, token)? {
                Some(next) => machine = next,
                None => return Ok(None),
            },
        }
    }
    ended(alloc, machine)
}

/// What the formula says that the tokens spell, if they spell one. A list that has a name twice is wrong.
#[tactic(auto, using(crate::proofs::FormulaReadWhole::run_is_reading))]
pub fn read_strictly(
    alloc: Global,
    model: &NamedModel,
    tokens: &[Token],
) -> Result<Option<ReadPart>, AllocError>
    ensures { IfOk result (IsReadingOf true model.now (map lexeme_of tokens.now)) }
{
    run(alloc, model, true, tokens)
}

/// The same with the names of the model itself, where a list that has a name twice is the set of its names.
#[tactic(auto, using(crate::proofs::FormulaReadWhole::run_is_reading))]
fn read_freely(
    alloc: Global,
    model: &Model,
    tokens: &[Token],
) -> Result<Option<ReadPart>, AllocError>
    ensures { IfOk result (IsReadingOf false model.now (map lexeme_of tokens.now)) }
{
    run(alloc, &NamedModel::of_model(model), false, tokens)
}

/// The formula that all tokens make, where a list that has a name twice is the set of its names; or a refusal with the least
/// code that applies: malformed, unknown names, too deep.
pub fn read_formula(alloc: Global, model: &Model, tokens: &[Token]) -> Result<Formula, Stop>
    ensures answer { Answers result (IsFormulaOf model.now (map lexeme_of tokens.now)) }
    ensures formula { IfOk result (IsFormula model.now) }
{
    match read_freely(alloc, model, tokens)? {
        None => Err(Stop::refused(MALFORMED)),
        Some(ReadPart::Faulty(code)) => Err(Stop::refused(code)),
        Some(ReadPart::Sound { formula, depth: _ }) => Ok(formula),
    }
}

/// A text is read in one way: two formulas' texts that are spelled alike are read alike, and tokens have one answer.
pub fn texts_are_read_one_way()
    ensures answers { AnswerOneWay }
    ensures texts { (strict : Bool) (m : PlantModel) (s t : Whole) → spelling s ≡ spelling t →
        reading_of strict m s ≡ reading_of strict m t }
{}
