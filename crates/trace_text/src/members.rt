//! Members of JSON's objects: texts, numbers, and names of a model.

ghost use Rattle.std.specs.Prelude.{◌≡◌, ◌∷◌, [], All, IsAscii, IfOk, OnOk, codes};
ghost use Rattle.serde_json.specs.Data.{number, unsigned, string, put};
ghost use Rattle.serde_json.specs.View.{view, members_view};
ghost use Rattle.trace_text.specs.Json.{HasAsciiNames, modes_members, modes_object, with_members};
ghost use Rattle.trace_text.specs.Names.{name_at};

use cca_base::Component;
use model_syntax::name_at;
use serde_json::{Map, Value};
use std::alloc::{AllocError, Global};

/// ASCII bytes as a text.
fn text_of(bytes: &[u8]) -> &str
    requires { IsAscii bytes.now }
    ensures { result.now ≡ bytes.now }
{
    match str::from_utf8(bytes) {
        Ok(text) => text,
        Err(_) => unreachable!(),
    }
}

pub fn put_number(
    map: &mut Map<String, Value>,
    alloc: Global,
    key: &str,
    n: u64,
) -> Result<(), AllocError>
    ensures { OnOk result (members_view map.new.entries
        ≡ put key.now (number (unsigned n)) (members_view map.old.entries)) }
{
    serde_json::put(map, alloc, key, Value::from(n))
}

pub fn put_text(
    map: &mut Map<String, Value>,
    alloc: Global,
    key: &str,
    text: &[u8],
) -> Result<(), AllocError>
    requires { IsAscii text.now }
    ensures { OnOk result (members_view map.new.entries
        ≡ put key.now (string text.now) (members_view map.old.entries)) }
{
    let value = Value::try_from_str(alloc, text_of(text))?;
    serde_json::put(map, alloc, key, value)
}

pub fn put_word(
    map: &mut Map<String, Value>,
    alloc: Global,
    key: &str,
    word: &str,
) -> Result<(), AllocError>
    ensures { OnOk result (members_view map.new.entries
        ≡ put key.now (string word.now) (members_view map.old.entries)) }
{
    let value = Value::try_from_str(alloc, word)?;
    serde_json::put(map, alloc, key, value)
}

/// A component's name with the name of one of its modes.
fn put_mode(
    map: &mut Map<String, Value>,
    alloc: Global,
    component: &Component,
    mode: u8,
) -> Result<(), AllocError>
    requires { HasAsciiNames component.now }
    ensures { OnOk result (members_view map.new.entries
        ≡ put component.now.name (string (name_at component.now.modes mode))
        (members_view map.old.entries)) }
{
    let name = name_at(component.modes.as_slice(), mode as usize);
    put_text(map, alloc, text_of(component.name.bytes()), name)
}

/// Each component's name with the name of its mode.
fn put_modes(
    map: &mut Map<String, Value>,
    alloc: Global,
    components: &[Component],
    modes: &[u8],
) -> Result<(), AllocError>
    requires { All HasAsciiNames components.now }
    ensures { OnOk result (members_view map.new.entries
        ≡ with_members (members_view map.old.entries) (modes_members components.now modes.now)) }
{
    for (i, component) in components.iter().enumerate() {
        let Some(mode) = modes.get(i) else {
            return Ok(());
        };
        put_mode(map, alloc, component, *mode)?;
    }
    Ok(())
}

/// The modes of a state, by the components' names.
#[tactic(auto, unfolding(crate::specs::Json::modes_object))]
pub fn modes_value(
    alloc: Global,
    components: &[Component],
    modes: &[u8],
) -> Result<Value, AllocError>
    requires { All HasAsciiNames components.now }
    ensures { IfOk result (λ v. view v ≡ modes_object components.now modes.now) }
{
    let mut map = Map::new(alloc);
    put_modes(&mut map, alloc, components, modes)?;
    Ok(Value::Object(map))
}
