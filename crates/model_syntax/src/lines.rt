//! What a line makes of the model, form by form.

ghost use Rattle.std.specs.Prelude.{◌≡◌, ◌<◌, ◌||◌, not, length, map, nat_le};
ghost use Rattle.text_base.specs.Lexemes.{lexeme_of};
ghost use Rattle.cca_base.specs.Prelude.{WellFormed};
ghost use Rattle.model_syntax.specs.Items.{shown_ends};
ghost use Rattle.model_syntax.specs.Items as items;
ghost use Rattle.model_syntax.specs.Lines.{HasBareNames, AnswersModel, component_next, variable_next, rule_next, failure_next, IsNextOfText, IsNextOfNumber};
ghost use Rattle.model_syntax.specs.Codes.{is_cost};

use crate::checks::{component_code, ends_of, variable_code};
use crate::indexed_model::IndexedModel;
use crate::item::Ends;
use cca_base::codes::{LIMIT, MALFORMED, NAME_UNKNOWN};
use cca_base::{Failure, MAX_COST, MAX_FAILURES, MAX_RULES, Stop};
use formula_syntax::{ReadPart, read_strictly};
use std::alloc::Global;
use text_base::{Token, read_number};

/// A line that declares a component.
pub fn component_line(
    alloc: Global,
    model: &mut IndexedModel,
    name: &[u8],
    modes: &[&[u8]],
    start: &[u8],
) -> Result<(), Stop>
    requires { HasBareNames (items.Component name.now (map (λ w. w.now) modes.now) start.now) }
    ensures { AnswersModel result model.old model.new (λ next.
        next ≡ component_next model.old name.now (map (λ w. w.now) modes.now) start.now) }
{
    match component_code(model, name, modes, start) {
        Some(code) => Err(Stop::refused(code)),
        None => {
            model.add_component(alloc, name, modes, start)?;
            Ok(())
        }
    }
}

/// A line that declares a variable.
pub fn variable_line(
    alloc: Global,
    model: &mut IndexedModel,
    name: &[u8],
    values: &[&[u8]],
    sensed: bool,
) -> Result<(), Stop>
    requires { HasBareNames (items.Variable name.now (map (λ w. w.now) values.now) sensed) }
    ensures { AnswersModel result model.old model.new (λ next.
        next ≡ variable_next model.old name.now (map (λ w. w.now) values.now) sensed) }
{
    match variable_code(model, name, values) {
        Some(code) => Err(Stop::refused(code)),
        None => {
            model.add_variable(alloc, name, values, sensed)?;
            Ok(())
        }
    }
}

/// A line with a rule.
pub fn rule_line(alloc: Global, model: &mut IndexedModel, tokens: &[Token]) -> Result<(), Stop>
    ensures { AnswersModel result model.old model.new
        (IsNextOfText (map lexeme_of tokens.now) (rule_next model.old)) }
{
    match read_strictly(alloc, &model.named(), tokens)? {
        None => Err(Stop::refused(MALFORMED)),
        Some(ReadPart::Faulty(code)) => Err(Stop::refused(code)),
        Some(ReadPart::Sound { formula, depth: _ }) => {
            if has_full_rules(model) {
                return Err(Stop::refused(LIMIT));
            }
            model.add_rule(formula)?;
            Ok(())
        }
    }
}

/// Whether the model takes no more rules.
fn has_full_rules(model: &IndexedModel) -> bool
    ensures value { result ≡ nat_le MAX_RULES (length model.now.rules) }
    ensures well_formed { WellFormed model.now }
{
    model.model().rules().len() >= MAX_RULES
}

/// Whether a failure may have the cost.
fn is_cost(cost: u128) -> bool
    ensures { result ≡ is_cost cost }
{
    0 < cost && cost <= MAX_COST as u128
}

/// Whether a failure may not have the cost, or the model takes no more failures.
fn failure_passes(model: &IndexedModel, cost: u128) -> bool
    ensures value { result ≡ (not (is_cost cost) || nat_le MAX_FAILURES
        (length model.now.failures)) }
    ensures well_formed { WellFormed model.now }
{
    let full = model.model().failures().len() >= MAX_FAILURES;
    !is_cost(cost) || full
}

/// A line with a failure.
pub fn failure_line(model: &mut IndexedModel, ends: Ends, cost: &[u8]) -> Result<(), Stop>
    ensures { AnswersModel result model.old model.new
        (IsNextOfNumber cost.now (failure_next model.old (shown_ends ends.entry))) }
{
    let Some(cost) = read_number(cost) else {
        return Err(Stop::refused(MALFORMED));
    };
    let Some((component, source, target)) = ends_of(model, ends) else {
        return Err(Stop::refused(NAME_UNKNOWN));
    };
    if failure_passes(model, cost) {
        return Err(Stop::refused(LIMIT));
    }
    model.add_failure(Failure {
        component,
        source,
        target,
        cost: cost as u32,
    })?;
    Ok(())
}
