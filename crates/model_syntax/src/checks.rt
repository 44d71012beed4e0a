//! What may be wrong with a declaration.

ghost use Rattle.std.specs.Prelude.{◌≡◌, ◌<◌, map, IfSome};
ghost use Rattle.cca_base.specs.Prelude.{HasMode};
ghost use Rattle.formula_syntax.specs.Meanings.{has_twice};
ghost use Rattle.model_syntax.specs.Items.{shown_ends};
ghost use Rattle.model_syntax.specs.Codes.{is_long, is_taken, start_mode, list_passes, names_code, component_code, variable_code, ends_of};

use crate::indexed_model::IndexedModel;
use crate::item::Ends;
use crate::words::{any_long, has_twice, is_long, start_mode};
use cca_base::codes::{LIMIT, NAME_REPEATED, NAME_UNKNOWN};
use cca_base::{MAX_CHOICES, MAX_COMPONENTS, MAX_VARIABLES, Subject};
use formula_syntax::value_of;

/// Whether a name is too long, or there are too many of them.
fn list_passes(name: &[u8], choices: &[&[u8]]) -> bool
    ensures { result ≡ list_passes name.now (map (λ w. w.now) choices.now) }
{
    is_long(name) || any_long(choices) || choices.len() > MAX_CHOICES
}

/// Whether a component or a variable has the name.
fn is_taken(model: &IndexedModel, name: &[u8]) -> bool
    ensures { result ≡ is_taken model.now name.now }
{
    model.named().subject_of(name).is_some()
}

/// The least code of a new name and its modes or values, where there may be no room for one more.
fn names_code(model: &IndexedModel, name: &[u8], choices: &[&[u8]], full: bool) -> Option<u8>
    ensures { result ≡ names_code model.now name.now (map (λ w. w.now) choices.now) full }
{
    if is_taken(model, name) || has_twice(choices) {
        Some(NAME_REPEATED)
    } else if list_passes(name, choices) || full {
        Some(LIMIT)
    } else {
        None
    }
}

/// The least code of a line that declares a component.
#[tactic(auto, unfolding(crate::specs::Codes::component_code))]
pub fn component_code(
    model: &IndexedModel,
    name: &[u8],
    modes: &[&[u8]],
    start: &[u8],
) -> Option<u8>
    ensures { result ≡ component_code model.now name.now (map (λ w. w.now) modes.now) start.now }
{
    if start_mode(modes, start).is_none() {
        Some(NAME_UNKNOWN)
    } else {
        let full = model.model().components().len() >= MAX_COMPONENTS;
        names_code(model, name, modes, full)
    }
}

/// The least code of a line that declares a variable.
#[tactic(auto, unfolding(crate::specs::Codes::variable_code))]
pub fn variable_code(model: &IndexedModel, name: &[u8], values: &[&[u8]]) -> Option<u8>
    ensures { result ≡ variable_code model.now name.now (map (λ w. w.now) values.now) }
{
    let full = model.model().variables().len() >= MAX_VARIABLES;
    names_code(model, name, values, full)
}

/// A component and two of its modes, by their numbers.
#[tactic(auto, using(formula_syntax::proofs::ModesByName::mode_of_component))]
pub fn ends_of(model: &IndexedModel, ends: Ends) -> Option<(u16, u8, u8)>
    ensures ends { result ≡ ends_of model.now (shown_ends ends.entry) }
    ensures source { IfSome result (λ e. HasMode model.now e.0 e.1) }
    ensures target { IfSome result (λ e. HasMode model.now e.0 e.2) }
{
    match model.named().subject_of(ends.name)? {
        Subject::Component(c) => {
            let source = value_of(model.model(), Subject::Component(c), ends.source)?;
            let target = value_of(model.model(), Subject::Component(c), ends.target)?;
            Some((c, source, target))
        }
        Subject::Variable(_) => None,
    }
}
