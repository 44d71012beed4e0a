//! Commands by their names: one by one among a model's commands, or by a map where many are looked for.

ghost use Rattle.std.specs.Prelude.{◌≡◌, ◌<◌, ◌≤◌, ◌^◌, Some, All, length, map, nat_eq, IfOk, IfSome, OnOk};
ghost use Rattle.std.specs.Cmp.Lexicographic.{pointwise};
ghost use Rattle.indexmap.specs.IndexMap.{Updates};
ghost use Rattle.cca_base.specs.Prelude.{AreNames};
ghost use Rattle.formula_syntax.specs.Lookups.{place_of};
ghost use Rattle.model_syntax.specs.Reader.{NumbersFit};
ghost use Rattle.trace_text.specs.LineWords.{IsReadFrom};
ghost use Rattle.trace_text.specs.Names.{name_at};
ghost use Rattle.trace_text.specs.TraceLines.{HasCommand};

use cca_base::{List, MAX_NAME, MAX_ROWS, Model, Name};
use formula_syntax::place_of;
use indexmap::IndexMap;
use std::alloc::{AllocError, Global};

/// From this number of names on a map is made.
const MANY_COMMANDS: usize = 128;

/// Gives a name its place.
fn insert_place(
    places: &mut IndexMap<Name, usize>,
    name: Name,
    place: usize,
) -> Result<(), AllocError>
    ensures { OnOk result (Updates (pointwise nat_eq) places.old places.new name (Some place)) }
{
    match places.insert(name, place) {
        Ok(_) => Ok(()),
        Err(_) => Err(AllocError),
    }
}

/// The place of each name.
fn places_of(alloc: Global, names: &[Name]) -> Result<IndexMap<Name, usize>, AllocError>
    requires { AreNames names.now }
    ensures { IfOk result (λ places. NumbersFit places names.now) }
{
    let mut places = IndexMap::new(alloc);
    for (i, name) in names.iter().enumerate() {
        insert_place(&mut places, *name, i)?;
    }
    Ok(places)
}

/// The place of a command's name, by the map where there is one.
fn place_by(model: &Model, places: Option<&IndexMap<Name, usize>>, word: &[u8]) -> Option<usize>
    requires fit { IfSome places (λ p. NumbersFit p.now model.now.commands) }
    ensures { result ≡ place_of model.now.commands word.now }
{
    let commands = model.commands().as_slice();
    match places {
        None => place_of(commands, word),
        Some(places) => {
            if word.len() > MAX_NAME {
                None
            } else {
                places.get(&Name::of(word)).copied()
            }
        }
    }
}

/// The place of each command of the model. The error is out of memory.
pub fn command_places(alloc: Global, model: &Model) -> Result<IndexMap<Name, usize>, AllocError>
    ensures { IfOk result (λ places. NumbersFit places model.now.commands) }
{
    places_of(alloc, model.commands().as_slice())
}

/// The number of the command of the name, by the map of the places.
pub fn command_of(model: &Model, places: &IndexMap<Name, usize>, word: &[u8]) -> Option<u16>
    requires fit { NumbersFit places.now model.now.commands }
    requires few { length model.now.commands ≤ 2 ^ 16 }
    ensures { result ≡ place_of model.now.commands word.now }
{
    match place_by(model, Some(places), word) {
        Some(place) => Some(place as u16),
        None => None,
    }
}

/// The place of the command that the word is, by the map where there is one.
fn read_place(model: &Model, places: Option<&IndexMap<Name, usize>>, word: &[u8]) -> Option<usize>
    requires fit { IfSome places (λ p. NumbersFit p.now model.now.commands) }
    ensures { IsReadFrom word.now (λ k.
        k < length model.now.commands) (name_at model.now.commands) result }
{
    place_by(model, places, word)
}

/// The command of the name, by the map where there is one.
fn command_by(model: &Model, places: Option<&IndexMap<Name, usize>>, word: &[u8]) -> Option<u16>
    requires fit { IfSome places (λ p. NumbersFit p.now model.now.commands) }
    ensures { IsReadFrom word.now (HasCommand model.now) (name_at model.now.commands) result }
{
    let _commands = model.commands();
    let Some(place) = read_place(model, places, word) else {
        return None;
    };
    if place < MAX_ROWS {
        Some(place as u16)
    } else {
        None
    }
}

/// The command of the name.
pub fn read_command(model: &Model, word: &[u8]) -> Option<u16>
    ensures { IsReadFrom word.now (HasCommand model.now) (name_at model.now.commands) result }
{
    command_by(model, None, word)
}

/// The commands of the names, by the map where there is one.
fn commands_by(
    alloc: Global,
    model: &Model,
    places: Option<&IndexMap<Name, usize>>,
    words: &[&[u8]],
) -> Result<Option<List<u16>>, AllocError>
    requires fit { IfSome places (λ p. NumbersFit p.now model.now.commands) }
    ensures { IfOk result (IsReadFrom (map (λ w.
        w.now) words.now) (All (HasCommand model.now)) (map (name_at model.now.commands))) }
{
    let mut plan = List::new(alloc);
    'words: for word in words {
        match command_by(model, places, word) {
            Some(command) => plan.push(command)?,
            None => return Ok(None),
        }
    }
    Ok(Some(plan))
}

/// The commands of the names.
pub fn read_commands(
    alloc: Global,
    model: &Model,
    words: &[&[u8]],
) -> Result<Option<List<u16>>, AllocError>
    ensures { IfOk result (IsReadFrom (map (λ w.
        w.now) words.now) (All (HasCommand model.now)) (map (name_at model.now.commands))) }
{
    if words.len() < MANY_COMMANDS {
        return commands_by(alloc, model, None, words);
    }
    let places = places_of(alloc, model.commands().as_slice())?;
    commands_by(alloc, model, Some(&places), words)
}
