//! Formulas that a subject has a value.

ghost use Rattle.std.specs.Prelude.{IfSome, IsTrue, length};
ghost use Rattle.cca_base.specs.Prelude.{is_within, subject_within};

use cca_base::{Formula, MAX_CHOICES, Model, Subject, ValueSet};

fn is_in(model: &Model, subject: Subject) -> bool
    ensures { IsTrue result →
        IsTrue (subject_within (length model.now.components) (length model.now.variables) subject) }
{
    match subject {
        Subject::Component(c) => (c as usize) < model.components().len(),
        Subject::Variable(v) => (v as usize) < model.variables().len(),
    }
}

/// That a subject of the model has the value.
pub fn is(model: &Model, subject: Subject, value: u8) -> Option<Formula>
    ensures { IfSome result (λ f.
        IsTrue (is_within (length model.now.components) (length model.now.variables) f)) }
{
    if value as usize >= MAX_CHOICES || !is_in(model, subject) {
        return None;
    }
    Some(Formula::Among {
        subject,
        values: ValueSet::empty().with(value),
    })
}
