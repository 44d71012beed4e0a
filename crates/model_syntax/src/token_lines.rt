//! What a line's tokens make of the model.

ghost use Rattle.std.specs.Prelude.{◌≡◌, Some, Ok, map};
ghost use Rattle.std.specs.List.{AllByRecursion};
ghost use Rattle.text_base.specs.Tokens.{IsOfItsKind, token_view};
ghost use Rattle.model_syntax.specs.Items.{shown_item};
ghost use Rattle.model_syntax.specs.Lines.{AnswersLine, HasBareNames, LeadsByForm, LeadsByTokens, opening};

use crate::indexed_model::IndexedModel;
use crate::item::{Item, item_of};
use crate::item_lines::item_line;
use crate::line_end::LineEnd;
use cca_base::Stop;
use cca_base::codes::MALFORMED;
use std::alloc::Global;
use text_base::Token;

/// The first line with tokens, by its item.
fn opening_line(
    alloc: Global,
    model: &mut IndexedModel,
    begun: &mut bool,
    item: Item,
) -> Result<LineEnd, Stop>
    ensures { AnswersLine result (record { model = model.old; begun = begun.old })
        (record { model = model.new; begun = begun.new }) (λ o.
        o ≡ opening model.old (Some (shown_item item.entry))) }
{
    match item {
        Item::Header(second) => {
            if second {
                model.set_second(alloc);
            }
            *begun = true;
            Ok(LineEnd::Going)
        }
        _ => Err(Stop::refused(MALFORMED)),
    }
}

/// A line with tokens that has a form.
#[tactic(auto, using(crate::proofs::LineAnswers::item_answers))]
fn form_line(
    alloc: Global,
    model: &mut IndexedModel,
    begun: &mut bool,
    item: Item,
) -> Result<LineEnd, Stop>
    requires { HasBareNames (shown_item item) }
    ensures { AnswersLine result (record { model = model.old; begun = begun.old })
        (record { model = model.new; begun = begun.new })
        (LeadsByForm begun.old model.old (Some (shown_item item.entry))) }
{
    if *begun {
        item_line(alloc, model, item)
    } else {
        opening_line(alloc, model, begun, item)
    }
}

/// A line, by its tokens.
pub fn tokens_line(
    alloc: Global,
    model: &mut IndexedModel,
    begun: &mut bool,
    tokens: &[Token],
) -> Result<LineEnd, Stop>
    requires { AllByRecursion IsOfItsKind (map token_view tokens.now) }
    ensures { AnswersLine result (record { model = model.old; begun = begun.old })
        (record { model = model.new; begun = begun.new })
        (LeadsByTokens (record { model = model.old; begun = begun.old })
        (Ok (map token_view tokens.now))) }
{
    if tokens.is_empty() {
        return Ok(LineEnd::Going);
    }
    match item_of(alloc, tokens)? {
        None => Err(Stop::refused(MALFORMED)),
        Some(item) => form_line(alloc, model, begun, item),
    }
}
