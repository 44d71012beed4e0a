//! A formula printed with the fewest parentheses that its precedence asks for.

ghost use Rattle.std.specs.Prelude.{◌≡◌, ◌∷◌, [], codes, OnOk, IfOk, MatchOption};
ghost use Rattle.text_base.specs.Lexemes.{word, symbol};
ghost use Rattle.cca_base.specs.Prelude.{PlantModel};
ghost use Rattle.model_syntax.specs.Printing.{among_said, part_said, said, formula_said, name_of, names_in};
ghost use Rattle.formula_syntax.specs.Lookups.{choices_of};
ghost use Rattle.model_syntax.specs.Drafts.{with_tokens, word_before};

use crate::print_names::{choices_of, list, name_of, names_in};
use crate::printer::Printer;
use cca_base::{Formula, Model, Name, Subject, ValueSet};
use std::alloc::{AllocError, Global};

/// How loosely the formula's outermost word binds.
#[tactic(auto, using(crate::proofs::PrintedTokens::precedence_steps))]
fn precedence(formula: &Formula) -> u8
    ensures { (m : PlantModel) → result ≡ (said m formula.now).precedence }
{
    match formula {
        Formula::True => 0,
        Formula::False => 0,
        Formula::Among { .. } => 0,
        Formula::Not(_) => 0,
        Formula::All(_) => 1,
        Formula::Any(_) => 2,
        Formula::Implies(..) => 3,
        Formula::Iff(..) => 3,
    }
}

/// Puts a subject and one value behind what is there.
fn comparison(
    out: &mut Printer,
    model: &Model,
    subject: Subject,
    sign: &[u8],
    value: &Name,
) -> Result<(), AllocError>
    ensures { OnOk result (out.new
        ≡ with_tokens out.old (word (name_of model.now subject) ∷ symbol sign.now ∷ word value.now
        ∷ [])) }
{
    out.word(name_of(model, subject))?;
    out.symbol(sign)?;
    out.word(value.bytes())?;
    Ok(())
}

/// Puts a subject and its values behind what is there.
#[tactic(auto, using(crate::proofs::PrintedTokens::token_steps))]
fn among(
    alloc: Global,
    out: &mut Printer,
    model: &Model,
    subject: Subject,
    set: ValueSet,
) -> Result<(), AllocError>
    ensures { OnOk result (out.new
        ≡ with_tokens out.old (among_said (name_of model.now subject)
        (names_in 0 (choices_of model.now subject) set)).tokens) }
{
    let chosen = names_in(alloc, choices_of(model, subject), set)?;
    match chosen.as_slice() {
        [value] => comparison(out, model, subject, b"=", value),
        values => {
            out.word(name_of(model, subject))?;
            out.word(b"in")?;
            out.symbol(b"{")?;
            list(out, values)?;
            out.symbol(b"}")?;
            Ok(())
        }
    }
}

/// The subject and the value, where the formula is a set of one value.
fn single(
    alloc: Global,
    model: &Model,
    formula: &Formula,
) -> Result<Option<(Subject, Name)>, AllocError>
    ensures { IfOk result (λ r. MatchOption r
        ((said model.now formula.now).denied ≡ word (codes "not") ∷ part_said 0 (said model.now formula.now))
        (λ one. (said model.now formula.now).denied ≡ word (name_of model.now one.0) ∷ symbol (codes "!=") ∷ word one.1 ∷ [])) }
{
    let Formula::Among { subject, values } = formula else {
        return Ok(None);
    };
    let chosen = names_in(alloc, choices_of(model, *subject), *values)?;
    match chosen.as_slice() {
        [value] => Ok(Some((*subject, *value))),
        _ => Ok(None),
    }
}

/// Puts the word between parts behind what is there, unless the first part comes next.
fn between(out: &mut Printer, place: usize, text: &[u8]) -> Result<(), AllocError>
    ensures { OnOk result (out.new ≡ with_tokens out.old (word_before place text.now)) }
{
    if place == 0 { Ok(()) } else { out.word(text) }
}

/// Puts a part behind what is there, in parentheses where it binds more loosely than is allowed.
#[cycle(formula)]
fn part(
    alloc: Global,
    out: &mut Printer,
    model: &Model,
    part: &Formula,
    allowed: u8,
) -> Result<(), AllocError>
    ensures { OnOk result (out.new
        ≡ with_tokens out.old (part_said allowed (said model.now part.now))) }
{
    if precedence(part) <= allowed {
        formula(alloc, out, model, part)?;
        return Ok(());
    }
    out.symbol(b"(")?;
    formula(alloc, out, model, part)?;
    out.symbol(b")")?;
    Ok(())
}

/// Puts a formula behind what is there.
#[cycle(formula)]
pub fn formula(
    alloc: Global,
    out: &mut Printer,
    model: &Model,
    whole: &Formula,
) -> Result<(), AllocError>
    ensures { OnOk result (out.new ≡ with_tokens out.old (formula_said model.now whole.now)) }
{
    match whole {
        Formula::True => out.word(b"true"),
        Formula::False => out.word(b"false"),
        Formula::Among { subject, values } => among(alloc, out, model, *subject, *values),
        Formula::Not(inner) => match single(alloc, model, inner.get())? {
            Some((subject, value)) => comparison(out, model, subject, b"!=", &value),
            None => {
                out.word(b"not")?;
                part(alloc, out, model, inner.get(), 0)
            }
        },
        Formula::All(parts) => {
            for (k, inner) in parts.as_slice().iter().enumerate() {
                between(out, k, b"and")?;
                part(alloc, out, model, inner, 0)?;
            }
            Ok(())
        }
        Formula::Any(parts) => {
            for (k, inner) in parts.as_slice().iter().enumerate() {
                between(out, k, b"or")?;
                part(alloc, out, model, inner, 1)?;
            }
            Ok(())
        }
        Formula::Implies(a, b) => {
            part(alloc, out, model, a.get(), 2)?;
            out.word(b"implies")?;
            part(alloc, out, model, b.get(), 2)?;
            Ok(())
        }
        Formula::Iff(a, b) => {
            part(alloc, out, model, a.get(), 2)?;
            out.word(b"iff")?;
            part(alloc, out, model, b.get(), 2)?;
            Ok(())
        }
    }
}
