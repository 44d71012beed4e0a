//! A model printed as text.

ghost use Rattle.std.specs.Prelude.{◌≡◌, ◌∷◌, [], map, IfOk, OnOk};
ghost use Rattle.text_base.specs.Lexemes.{number};
ghost use Rattle.model_syntax.specs.Items.{sensed_spelled};
ghost use Rattle.model_syntax.specs.Printing.{printed_model, version_digit, header_said, component_said, variable_said, rule_said, move_said, failure_said, ends_said};
ghost use Rattle.model_syntax.specs.Drafts.{with_token, with_tokens, with_lines};

use crate::print_formula::formula;
use crate::print_names::{choices_of, list, name_at, name_of};
use crate::printer::Printer;
use cca_base::{Component, Failure, Formula, List, Model, Move, Subject, Variable};
use std::alloc::{AllocError, Global};

/// Puts the number of a version behind what is there.
fn version(out: &mut Printer, version: u8) -> Result<(), AllocError>
    ensures { OnOk result (out.new ≡ with_token out.old (number (version_digit version))) }
{
    if version == 2 {
        out.number(b"2")
    } else {
        out.number(b"1")
    }
}

fn header(out: &mut Printer, model: &Model) -> Result<(), AllocError>
    ensures { OnOk result (out.new ≡ with_lines out.old (header_said model.now.version ∷ [])) }
{
    out.word(b"titan")?;
    version(out, model.version())?;
    out.end_line()?;
    Ok(())
}

#[tactic(auto, using(crate::proofs::PrintedTokens::token_steps))]
fn component(out: &mut Printer, x: &Component) -> Result<(), AllocError>
    ensures { OnOk result (out.new ≡ with_lines out.old (component_said x.now ∷ [])) }
{
    let modes = x.modes.as_slice();
    out.word(b"component")?;
    out.word(x.name.bytes())?;
    out.symbol(b"=")?;
    list(out, modes)?;
    out.word(b"start")?;
    out.word(name_at(modes, x.start as usize))?;
    out.end_line()?;
    Ok(())
}

/// Puts the word `sensed` behind what is there, where it belongs.
fn sensed(out: &mut Printer, sensed: bool) -> Result<(), AllocError>
    ensures { OnOk result (out.new ≡ with_tokens out.old (sensed_spelled sensed)) }
{
    if sensed { out.word(b"sensed") } else { Ok(()) }
}

#[tactic(auto, using(crate::proofs::PrintedTokens::token_steps))]
fn variable(out: &mut Printer, x: &Variable) -> Result<(), AllocError>
    ensures { OnOk result (out.new ≡ with_lines out.old (variable_said x.now ∷ [])) }
{
    out.word(b"var")?;
    out.word(x.name.bytes())?;
    out.symbol(b"=")?;
    list(out, x.values.as_slice())?;
    sensed(out, x.sensed)?;
    out.end_line()?;
    Ok(())
}

fn rule(alloc: Global, out: &mut Printer, model: &Model, x: &Formula) -> Result<(), AllocError>
    ensures { OnOk result (out.new ≡ with_lines out.old (rule_said model.now x.now ∷ [])) }
{
    out.word(b"rule")?;
    formula(alloc, out, model, x)?;
    out.end_line()?;
    Ok(())
}

/// Puts a component and two of its modes behind what is there.
fn ends(
    out: &mut Printer,
    model: &Model,
    component: u16,
    source: u8,
    target: u8,
) -> Result<(), AllocError>
    ensures { OnOk result (out.new
        ≡ with_tokens out.old (ends_said model.now component source target [])) }
{
    let subject = Subject::Component(component);
    let modes = choices_of(model, subject);
    out.word(name_of(model, subject))?;
    out.word(name_at(modes, source as usize))?;
    out.symbol(b"->")?;
    out.word(name_at(modes, target as usize))?;
    Ok(())
}

fn moved(alloc: Global, out: &mut Printer, model: &Model, x: &Move) -> Result<(), AllocError>
    ensures { OnOk result (out.new ≡ with_lines out.old (move_said model.now x.now ∷ [])) }
{
    out.word(if x.repair { b"repair" } else { b"move" })?;
    ends(out, model, x.component, x.source, x.target)?;
    out.word(b"by")?;
    out.word(name_at(model.commands().as_slice(), x.command as usize))?;
    out.word(b"when")?;
    formula(alloc, out, model, &x.guard)?;
    out.end_line()?;
    Ok(())
}

fn failure(alloc: Global, out: &mut Printer, model: &Model, x: &Failure) -> Result<(), AllocError>
    ensures { OnOk result (out.new ≡ with_lines out.old (failure_said model.now x.now ∷ [])) }
{
    let digits = x.cost.to_string(alloc)?;
    out.word(b"fail")?;
    ends(out, model, x.component, x.source, x.target)?;
    out.word(b"cost")?;
    out.number(digits.as_bytes())?;
    out.end_line()?;
    Ok(())
}

fn components(out: &mut Printer, model: &Model) -> Result<(), AllocError>
    ensures { OnOk result (out.new ≡ with_lines out.old (map component_said model.now.components)) }
{
    for x in model.components().as_slice() {
        component(out, x)?;
    }
    Ok(())
}

fn variables(out: &mut Printer, model: &Model) -> Result<(), AllocError>
    ensures { OnOk result (out.new ≡ with_lines out.old (map variable_said model.now.variables)) }
{
    for x in model.variables().as_slice() {
        variable(out, x)?;
    }
    Ok(())
}

fn rules(alloc: Global, out: &mut Printer, model: &Model) -> Result<(), AllocError>
    ensures { OnOk result (out.new
        ≡ with_lines out.old (map (rule_said model.now) model.now.rules)) }
{
    for x in model.rules().as_slice() {
        rule(alloc, out, model, x)?;
    }
    Ok(())
}

fn moves(alloc: Global, out: &mut Printer, model: &Model) -> Result<(), AllocError>
    ensures { OnOk result (out.new
        ≡ with_lines out.old (map (move_said model.now) model.now.moves)) }
{
    for x in model.moves().as_slice() {
        moved(alloc, out, model, x)?;
    }
    Ok(())
}

fn failures(alloc: Global, out: &mut Printer, model: &Model) -> Result<(), AllocError>
    ensures { OnOk result (out.new
        ≡ with_lines out.old (map (failure_said model.now) model.now.failures)) }
{
    for x in model.failures().as_slice() {
        failure(alloc, out, model, x)?;
    }
    Ok(())
}

/// The model's text, one line per item, each with its LF. First comes `titan` and the version, then the components, the variables, the
/// rules, the moves and repairs in their order, and the failures. A space stands between two tokens that are both words or numbers, and
/// parentheses stand where a formula needs them. The error is out of memory.
pub fn print_model(alloc: Global, model: &Model) -> Result<List<u8>, AllocError>
    ensures { IfOk result (λ text. text ≡ printed_model model.now) }
{
    let mut out = Printer::new(alloc);
    header(&mut out, model)?;
    components(&mut out, model)?;
    variables(&mut out, model)?;
    rules(alloc, &mut out, model)?;
    moves(alloc, &mut out, model)?;
    failures(alloc, &mut out, model)?;
    Ok(out.into_text())
}
