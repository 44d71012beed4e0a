//! Pairs, components and moves by their names.

ghost use Rattle.std.specs.Prelude.{◌≡◌, ◌∷◌, ◌++◌};
ghost use Rattle.std.specs.Fmt.{decimal};
ghost use Rattle.byte_buffer.specs.Outs.{Pushes};
ghost use Rattle.trace_text.specs.Names.{name_at, choice_text, mode_text, mode_text_at, pair_text, pair_text_at, pairs_text, component_name, components_text, mode_name, move_text, move_text_at};

use byte_buffer::Out;
use cca_base::{Component, Model, Move, Name, Pair};
use itoa::Buffer;
use model_syntax::name_at;
use std::alloc::AllocError;

/// A number by its digits, which take no memory.
pub fn push_number(out: &mut Out, n: u64) -> Result<(), AllocError>
    ensures { Pushes (decimal n) out.old result out.new }
{
    let mut digits = Buffer::new();
    out.push(digits.format(n).as_bytes())
}

/// A number behind a word.
pub fn push_field(out: &mut Out, word: &[u8], n: u64) -> Result<(), AllocError>
    ensures { Pushes (word.now ++ decimal n) out.old result out.new }
{
    out.push(word)?;
    push_number(out, n)
}

/// A word behind a space.
pub fn push_word(out: &mut Out, word: &[u8]) -> Result<(), AllocError>
    ensures { Pushes (32 ∷ word.now) out.old result out.new }
{
    out.push_byte(b' ')?;
    out.push(word)
}

/// The name of a component, or no bytes.
pub fn component_bytes(components: &[Component], c: usize) -> &[u8]
    ensures { result.now ≡ component_name components.now c }
{
    match components.get(c) {
        Some(component) => component.name.bytes(),
        None => b"",
    }
}

/// The name of a component's mode, or no bytes.
pub fn mode_bytes(components: &[Component], c: usize, mode: u8) -> &[u8]
    ensures { result.now ≡ mode_name components.now c mode }
{
    match components.get(c) {
        Some(component) => name_at(component.modes.as_slice(), mode as usize),
        None => b"",
    }
}

pub fn push_name(out: &mut Out, names: &[Name], at: usize) -> Result<(), AllocError>
    ensures { Pushes (name_at names.now at) out.old result out.new }
{
    out.push(name_at(names, at))
}

/// A byte with others behind it.
fn push_behind(out: &mut Out, byte: u8, bytes: &[u8]) -> Result<(), AllocError>
    ensures { Pushes (byte ∷ bytes.now) out.old result out.new }
{
    let _room = out.capacity();
    let Some(count) = bytes.len().checked_add(1) else {
        return Err(AllocError);
    };
    out.reserve(count)?;
    out.push_within(&[byte]);
    out.push_within(bytes);
    Ok(())
}

/// A name with one of its choices, behind a space.
pub fn push_choice_word(
    out: &mut Out,
    name: &[u8],
    choices: &[Name],
    at: u8,
) -> Result<(), AllocError>
    ensures { Pushes (32 ∷ choice_text name.now choices.now at) out.old result out.new }
{
    push_behind(out, b' ', name)?;
    push_behind(out, b'=', name_at(choices, at as usize))
}

/// A component with one of its modes, and a byte between them.
fn push_mode(out: &mut Out, between: u8, component: &Component, mode: u8) -> Result<(), AllocError>
    ensures { Pushes (mode_text between component.now mode) out.old result out.new }
{
    out.push(component.name.bytes())?;
    out.push_byte(between)?;
    push_name(out, component.modes.as_slice(), mode as usize)
}

/// The same of a component of the model.
fn push_mode_at(
    out: &mut Out,
    between: u8,
    components: &[Component],
    number: usize,
    mode: u8,
) -> Result<(), AllocError>
    ensures { Pushes (mode_text_at between components.now number mode) out.old result out.new }
{
    if let Some(component) = components.get(number) {
        push_mode(out, between, component, mode)?;
    }
    Ok(())
}

pub fn push_pair(out: &mut Out, component: &Component, mode: u8) -> Result<(), AllocError>
    ensures { Pushes (pair_text component.now mode) out.old result out.new }
{
    push_mode(out, b'=', component, mode)
}

pub fn push_pair_at(
    out: &mut Out,
    components: &[Component],
    number: usize,
    mode: u8,
) -> Result<(), AllocError>
    ensures { Pushes (pair_text_at components.now number mode) out.old result out.new }
{
    push_mode_at(out, b'=', components, number, mode)
}

/// A pair behind a space.
fn push_pair_word(out: &mut Out, components: &[Component], pair: Pair) -> Result<(), AllocError>
    ensures { Pushes (32 ∷ pair_text_at components.now pair.item pair.value) out.old result out.new }
{
    out.push_byte(b' ')?;
    push_pair_at(out, components, pair.item as usize, pair.value)
}

/// Each pair, behind a space.
pub fn push_pairs(out: &mut Out, components: &[Component], pairs: &[Pair]) -> Result<(), AllocError>
    ensures { Pushes (pairs_text components.now pairs.now) out.old result out.new }
{
    for pair in pairs {
        push_pair_word(out, components, *pair)?;
    }
    Ok(())
}

/// Each component's name, behind a space.
pub fn push_components(
    out: &mut Out,
    components: &[Component],
    list: &[u16],
) -> Result<(), AllocError>
    ensures { Pushes (components_text components.now list.now) out.old result out.new }
{
    for c in list {
        push_word(out, component_bytes(components, *c as usize))?;
    }
    Ok(())
}

/// The component of a move, the mode that it leaves, and its command.
pub fn push_move(out: &mut Out, model: &Model, x: &Move) -> Result<(), AllocError>
    ensures { Pushes (move_text model.now x.now) out.old result out.new }
{
    let components = model.components().as_slice();
    push_mode_at(out, b' ', components, x.component as usize, x.source)?;
    out.push_byte(b' ')?;
    push_name(out, model.commands().as_slice(), x.command as usize)
}

/// A move behind a space.
fn push_move_word(out: &mut Out, model: &Model, x: &Move) -> Result<(), AllocError>
    ensures { Pushes (32 ∷ move_text model.now x.now) out.old result out.new }
{
    out.push_byte(b' ')?;
    push_move(out, model, x)
}

/// The move at a place of a list, behind a space.
pub fn push_move_at(
    out: &mut Out,
    model: &Model,
    moves: &[Move],
    move_number: usize,
) -> Result<(), AllocError>
    ensures { Pushes (move_text_at model.now moves.now move_number) out.old result out.new }
{
    if let Some(x) = moves.get(move_number) {
        push_move_word(out, model, x)?;
    }
    Ok(())
}
