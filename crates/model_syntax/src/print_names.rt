//! Names of a model printed.

ghost use Rattle.std.specs.Prelude.{◌≡◌, ◌≤◌, length, OnOk, IfOk};
ghost use Rattle.cca_base.specs.declared.limits.TheConstants.{MAX_CHOICES};
ghost use Rattle.text_base.specs.Lists.{name_list_spelled};
ghost use Rattle.formula_syntax.specs.Lookups.{choices_of};
ghost use Rattle.model_syntax.specs.Printing.{name_of, name_at, names_in};
ghost use Rattle.model_syntax.specs.Drafts.{with_token, with_tokens};

use crate::printer::Printer;
use cca_base::{Model, Name, Subject, ValueSet};
use std::alloc::{AllocError, Global};

/// The subject's name.
pub fn name_of(model: &Model, subject: Subject) -> &[u8]
    ensures { result.now ≡ name_of model.now subject }
{
    match subject {
        Subject::Component(c) => match model.components().as_slice().get(c as usize) {
            Some(component) => component.name.bytes(),
            None => &[],
        },
        Subject::Variable(v) => match model.variables().as_slice().get(v as usize) {
            Some(variable) => variable.name.bytes(),
            None => &[],
        },
    }
}

/// The names of the subject's modes or values.
pub fn choices_of(model: &Model, subject: Subject) -> &[Name]
    ensures value { result.now ≡ choices_of model.now subject }
    ensures few { length result.now ≤ MAX_CHOICES }
{
    match subject {
        Subject::Component(c) => match model.components().as_slice().get(c as usize) {
            Some(component) => component.modes.as_slice(),
            None => &[],
        },
        Subject::Variable(v) => match model.variables().as_slice().get(v as usize) {
            Some(variable) => variable.values.as_slice(),
            None => &[],
        },
    }
}

/// The name at a place.
pub fn name_at(names: &[Name], at: usize) -> &[u8]
    ensures { result.now ≡ name_at names.now at }
{
    match names.get(at) {
        Some(name) => name.bytes(),
        None => &[],
    }
}

/// The names in the set, in their order.
pub fn names_in(alloc: Global, names: &[Name], set: ValueSet) -> Result<Vec<Name>, AllocError>
    requires few { length names.now ≤ MAX_CHOICES }
    ensures { IfOk result (λ chosen. chosen.items ≡ names_in 0 names.now set) }
{
    let mut chosen = Vec::new(alloc);
    for (k, name) in names.iter().enumerate() {
        if set.has(k as u8) {
            chosen.push(*name)?;
        }
    }
    Ok(chosen)
}

/// Puts the names behind what is there, with commas between them.
#[tactic(auto, using(crate::proofs::PrintedTokens::list_steps))]
pub fn list(out: &mut Printer, names: &[Name]) -> Result<(), AllocError>
    ensures { OnOk result (out.new ≡ with_tokens out.old (name_list_spelled names.now)) }
{
    let [first, rest @ ..] = names else {
        return Ok(());
    };
    out.word(first.bytes())?;
    for name in rest {
        out.symbol(b",")?;
        out.word(name.bytes())?;
    }
    Ok(())
}
