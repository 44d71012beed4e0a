//! Parts of a line, read from its words: numbers, choices and plans.

ghost use Rattle.std.specs.Prelude.{◌≡◌, ◌≢◌, ◌↔◌, ◌<◌, ◌≤◌, ◌^◌, [], ◌∷◌, ◌++◌, ℕ, List, codes, length, map, slice_get, IfOk, IfSome, IsTrue, MatchOption};
ghost use Rattle.std.specs.Fmt.{decimal};
ghost use Rattle.std.specs.Option.{option_map};
ghost use Rattle.cca_base.specs.Prelude.{IsState};
ghost use Rattle.cca_base.specs.declared.limits.TheConstants.{MAX_CHOICES};
ghost use Rattle.trace_text.specs.LineWords.{AreChosen, IsReadFrom, mode_words, plan_words, choice_words, value_words};
ghost use Rattle.trace_text.specs.Names.{HaveChoices, choice_text, name_at, rows_of};
ghost use Rattle.trace_text.specs.TraceLines.{FitsPlan, HasValues};

use crate::commands::read_commands;
use cca_base::{Component, List, Model, Name, PlanEnd, Variable};
use formula_syntax::place_of;
use std::alloc::{AllocError, Global};
use text_base::read_number;

/// Rows of choices.
#[derive(Clone, Copy)]
pub enum Rows<'a> {
    /// Components with their modes.
    Modes(&'a [Component]),
    /// Variables with their values.
    Values(&'a [Variable]),
}

/// The number that the word is, if it has at most 64 bits.
pub fn read_count(word: &[u8]) -> Option<u64>
    ensures { IsReadFrom word.now (λ n. n < 2 ^ 64) decimal result }
{
    let Some(n) = read_number(word) else {
        return None;
    };
    if n <= u128::from(u64::MAX) {
        Some(n as u64)
    } else {
        None
    }
}

/// What is left of the word behind the prefix.
fn behind<'a>(word: &'a [u8], prefix: &[u8]) -> Option<&'a [u8]>
    ensures { MatchOption result ((rest : List ℕ) → prefix.now ++ rest ≢ word.now) (λ rest.
        prefix.now ++ rest.now ≡ word.now) }
{
    if word.len() < prefix.len() {
        return None;
    }
    let (front, rest) = word.split_at(prefix.len());
    if front == prefix { Some(rest) } else { None }
}

/// The place of the name that the word is.
fn read_name(names: &[Name], word: &[u8]) -> Option<usize>
    ensures { IsReadFrom word.now (λ k. k < length names.now) (name_at names.now) result }
{
    place_of(names, word)
}

/// The choice that the word gives the name.
pub fn read_choice(name: &[u8], choices: &[Name], word: &[u8]) -> Option<u8>
    requires { length choices.now ≤ MAX_CHOICES }
    ensures { IsReadFrom word.now (λ k.
        k < length choices.now) (choice_text name.now choices.now) result }
{
    let Some(equation) = behind(word, name) else {
        return None;
    };
    let Some(choice) = behind(equation, b"=") else {
        return None;
    };
    match read_name(choices, choice) {
        Some(place) => Some(place as u8),
        None => None,
    }
}

/// The name of a row and the names of its choices.
fn row_at<'a>(rows: Rows<'a>, place: usize) -> Option<(&'a [u8], &'a [Name])>
    requires { HaveChoices rows }
    ensures row { option_map (λ r.
        record { name = r.0.now; choices = r.1.now }) result
        ≡ slice_get (rows_of rows.entry) place }
    ensures few { IfSome result (λ r. length r.1.now ≤ MAX_CHOICES) }
{
    match rows {
        Rows::Modes(components) => match components.get(place) {
            Some(component) => Some((component.name.bytes(), component.modes.as_slice())),
            None => None,
        },
        Rows::Values(variables) => match variables.get(place) {
            Some(variable) => Some((variable.name.bytes(), variable.values.as_slice())),
            None => None,
        },
    }
}

/// A choice for each row, each from one word.
fn read_each(alloc: Global, rows: Rows, words: &[&[u8]]) -> Result<Option<List<u8>>, AllocError>
    requires full { length words.now ≡ length (rows_of rows) }
    requires choices { HaveChoices rows }
    ensures { IfOk result (IsReadFrom (map (λ w.
        w.now) words.now) (AreChosen (rows_of rows.entry)) (choice_words (rows_of rows.entry))) }
{
    let mut chosen = List::new(alloc);
    for (i, word) in words.iter().enumerate() {
        let Some((name, choices)) = row_at(rows, i) else {
            return Ok(None);
        };
        match read_choice(name, choices, word) {
            Some(choice) => chosen.push(choice)?,
            None => return Ok(None),
        }
    }
    Ok(Some(chosen))
}

/// The modes of a state of the model.
pub fn read_modes(
    alloc: Global,
    model: &Model,
    words: &[&[u8]],
) -> Result<Option<List<u8>>, AllocError>
    requires { length words.now ≡ length model.now.components }
    ensures { IfOk result (IsReadFrom (map (λ w.
        w.now) words.now) (IsState model.now) (mode_words model.now.components)) }
{
    let components = model.components().as_slice();
    read_each(alloc, Rows::Modes(components), words)
}

/// The values of a world of the model.
pub fn read_values(
    alloc: Global,
    model: &Model,
    words: &[&[u8]],
) -> Result<Option<List<u8>>, AllocError>
    ensures { IfOk result (IsReadFrom (map (λ w.
        w.now) words.now) (HasValues model.now) (value_words model.now.variables)) }
{
    let variables = model.variables().as_slice();
    if words.len() != variables.len() {
        return Ok(None);
    }
    read_each(alloc, Rows::Values(variables), words)
}

/// Whether the only word is `long`.
fn is_long(words: &[&[u8]]) -> bool
    ensures { IsTrue result ↔ (map (λ w. w.now) words.now ≡ codes "long" ∷ []) }
{
    match words {
        [word] => *word == b"long".as_slice(),
        _ => false,
    }
}

/// Whether an empty word and then `long` are all.
fn is_spaced_long(words: &[&[u8]]) -> bool
    ensures { IsTrue result ↔ (map (λ w. w.now) words.now ≡ [] ∷ codes "long" ∷ []) }
{
    match words {
        [space, word] => space.is_empty() && *word == b"long".as_slice(),
        _ => false,
    }
}

/// The plan of the words: the word `long` alone is a plan too long to be printed, and a second space comes before a command of
/// that name which stands alone.
pub fn read_plan(
    alloc: Global,
    model: &Model,
    words: &[&[u8]],
) -> Result<Option<PlanEnd>, AllocError>
    ensures { IfOk result (IsReadFrom (map (λ w.
        w.now) words.now) (FitsPlan model.now) (plan_words model.now.commands)) }
{
    if is_long(words) {
        Ok(Some(PlanEnd::Long))
    } else if is_spaced_long(words) {
        let plan = read_commands(alloc, model, &words[1..])?;
        Ok(plan.map(PlanEnd::Plan))
    } else {
        let plan = read_commands(alloc, model, words)?;
        Ok(plan.map(PlanEnd::Plan))
    }
}
