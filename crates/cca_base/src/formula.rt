//! Formulas over modes and values, and their truth at a state and a world.

ghost use Rattle.std.specs.Prelude.{◌≡◌, ◌<◌, length, IsTrue, IfOk};
ghost use Rattle.cca_base.specs.Formula.{truth, is_within, subject_within, subject_value};

use crate::boxed::Boxed;
use crate::list::List;
use crate::sets::ValueSet;
use crate::state::{State, World};

/// What a formula asks about: a component's mode or a variable's value, by its number in the model.
#[derive(Clone, Copy, Debug, PartialEq, Eq)]
pub enum Subject {
    Component(u16),
    Variable(u16),
}

/// A condition on the components' modes and the variables' values.
#[derive(Debug, Drop)]
pub enum Formula {
    True,
    False,
    /// The subject has one of the set's modes or values.
    Among { subject: Subject, values: ValueSet },
    Not(Boxed<Formula>),
    /// Each part is true.
    All(List<Formula>),
    /// Some part is true.
    Any(List<Formula>),
    /// The second is true wherever the first is.
    Implies(Boxed<Formula>, Boxed<Formula>),
    /// Both are true, or neither is.
    Iff(Boxed<Formula>, Boxed<Formula>),
}

// The number of the subject's mode or value.
fn value_of(subject: Subject, state: &State, world: &World) -> u8
    requires { IsTrue (subject_within (length state.now.modes) (length world.now.values) subject) }
    ensures { result ≡ subject_value subject state.now.modes world.now.values }
{
    match subject {
        Subject::Component(c) => *state.modes.get(c as usize),
        Subject::Variable(v) => *world.values.get(v as usize),
    }
}

/// Whether the formula is true of a state and a world.
pub fn holds_at(formula: &Formula, state: &State, world: &World) -> bool
    requires { IsTrue (is_within (length state.now.modes) (length world.now.values) formula.now) }
    ensures { result ≡ truth state.now.modes world.now.values formula.now }
{
    match formula {
        Formula::True => true,
        Formula::False => false,
        Formula::Among { subject, values } => values.has(value_of(*subject, state, world)),
        Formula::Not(part) => !holds_at(part.get(), state, world),
        Formula::All(parts) => {
            for part in parts.as_slice() {
                if !holds_at(part, state, world) {
                    return false;
                }
            }
            true
        }
        Formula::Any(parts) => {
            for part in parts.as_slice() {
                if holds_at(part, state, world) {
                    return true;
                }
            }
            false
        }
        Formula::Implies(a, b) => !holds_at(a.get(), state, world)
            || holds_at(b.get(), state, world),
        Formula::Iff(a, b) => holds_at(a.get(), state, world) == holds_at(b.get(), state, world),
    }
}
