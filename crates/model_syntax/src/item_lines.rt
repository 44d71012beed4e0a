//! What a line that has a form makes of the model.

ghost use Rattle.model_syntax.specs.Items.{shown_item};
ghost use Rattle.model_syntax.specs.Lines.{AnswersItem, HasBareNames, IsNextOfItem};

use crate::indexed_model::IndexedModel;
use crate::item::Item;
use crate::line_end::LineEnd;
use crate::lines::{component_line, failure_line, rule_line, variable_line};
use crate::moves::move_line;
use cca_base::Stop;
use cca_base::codes::MALFORMED;
use std::alloc::Global;

/// A line of the model, by its item.
pub fn item_line(alloc: Global, model: &mut IndexedModel, item: Item) -> Result<LineEnd, Stop>
    requires { HasBareNames (shown_item item) }
    ensures { AnswersItem result model.old model.new
        (IsNextOfItem model.old (shown_item item.entry)) }
{
    match item {
        Item::Header(_) => return Err(Stop::refused(MALFORMED)),
        Item::Component { name, modes, start } => component_line(
            alloc,
            model,
            name,
            modes.as_slice(),
            start,
        )?,
        Item::Variable {
            name,
            values,
            sensed,
        } => variable_line(alloc, model, name, values.as_slice(), sensed)?,
        Item::Rule(formula) => rule_line(alloc, model, formula)?,
        Item::Move {
            repair,
            ends,
            command,
            guard,
        } => move_line(alloc, model, repair, ends, command, guard)?,
        Item::Failure { ends, cost } => failure_line(model, ends, cost)?,
        Item::Script => return Ok(LineEnd::Script),
    }
    Ok(LineEnd::Going)
}
