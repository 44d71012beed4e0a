//! What the modes that a move may lean on say by themselves of its guard, so that most guards need no search.

ghost use Rattle.std.specs.Prelude.{◌≡◌, ◌↔◌, ℕ, List, IsTrue, IfSome, Some, slice_get};
ghost use Rattle.cca_base.specs.Prelude.{has, subject_value, truth};
ghost use Rattle.cca_base.specs.declared.cube.Pair.{Pair};
ghost use Rattle.plan_checker.specs.Steps.{IsLeanedOn, HasSupport};

use cca_base::{Formula, Model, State, Subject, ValueSet};

/// The modes of a state that a move of one component may lean on: the component's own, and those that aren't broken.
#[derive(Drop)]
pub(crate) struct Support<'a> {
    pub model: &'a Model,
    pub state: &'a State,
    pub own: u16,
}

/// Whether the move may lean on the mode.
pub(crate) fn is_leaned_on(support: &Support, item: u16, value: u8) -> bool
    ensures { IsTrue result ↔ IsLeanedOn support.now.model.now support.now.own
        (record { item = item; value = value }) }
{
    item == support.own || !support.model.broken(item, value)
}

/// The component's mode, if the move may lean on it.
fn known_mode(support: &Support, component: u16) -> Option<u8>
    ensures { IfSome result (λ mode.
        (slice_get support.now.state.now.modes component ≡ Some mode)
        × IsLeanedOn support.now.model.now support.now.own
        (record { item = component; value = mode })) }
{
    let mode = *support.state.modes.as_slice().get(component as usize)?;
    if is_leaned_on(support, component, mode) {
        Some(mode)
    } else {
        None
    }
}

/// Whether the move may lean on the subject's mode, and it is one of the values, or none of them, as is wanted.
fn is_sure_of(support: &Support, subject: Subject, values: ValueSet, want: bool) -> bool
    ensures { IsTrue result → (t w : List ℕ) →
        HasSupport support.now.model.now support.now.state.now.modes support.now.own t →
        has values (subject_value subject t w) ≡ want }
{
    match subject {
        Subject::Component(c) => match known_mode(support, c) {
            Some(mode) => values.has(mode) == want,
            None => false,
        },
        Subject::Variable(_) => false,
    }
}

/// Whether the modes that the move may lean on make the formula true, or make it false, as is wanted. A no says nothing.
pub(crate) fn is_sure(support: &Support, formula: &Formula, want: bool) -> bool
    ensures { IsTrue result → (t w : List ℕ) →
        HasSupport support.now.model.now support.now.state.now.modes support.now.own t →
        truth t w formula.now ≡ want }
{
    match formula {
        Formula::True => want,
        Formula::False => !want,
        Formula::Among { subject, values } => is_sure_of(support, *subject, *values, want),
        Formula::Not(part) => is_sure(support, part.get(), !want),
        Formula::All(parts) => {
            for part in parts.as_slice() {
                if is_sure(support, part, want) != want {
                    return !want;
                }
            }
            want
        }
        Formula::Any(parts) => {
            for part in parts.as_slice() {
                if is_sure(support, part, want) == want {
                    return want;
                }
            }
            !want
        }
        Formula::Implies(..) | Formula::Iff(..) => false,
    }
}
