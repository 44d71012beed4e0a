//! What the names of an event line stand for.

ghost use Rattle.std.specs.Prelude.{◌≡◌, map, IfOk};
ghost use Rattle.text_base.specs.Pairs.{shown_pair};
ghost use Rattle.script_reader.specs.Named.{component_of, variable_of, stands_for, each_pair};

use cca_base::{List, Pair, Subject};
use formula_syntax::{NamedModel, value_of};
use std::alloc::{AllocError, Global};
use text_base::NamedPair;

/// What the pairs of a line are.
#[derive(Clone, Copy)]
pub enum Naming {
    /// Components with modes.
    Modes,
    /// Variables with values.
    Values,
}

/// The number of the component of this name.
fn component_of(model: &NamedModel, name: &[u8]) -> Option<u16>
    ensures { result ≡ component_of model.now name.now }
{
    match model.subject_of(name)? {
        Subject::Component(c) => Some(c),
        Subject::Variable(_) => None,
    }
}

/// The number of the variable of this name.
pub fn variable_of(model: &NamedModel, name: &[u8]) -> Option<u16>
    ensures { result ≡ variable_of model.now name.now }
{
    match model.subject_of(name)? {
        Subject::Variable(v) => Some(v),
        Subject::Component(_) => None,
    }
}

/// The component of the first name with its mode of the second, or the variable with its value.
pub fn stands_for(model: &NamedModel, naming: Naming, pair: &NamedPair) -> Option<Pair>
    ensures { result ≡ stands_for naming model.now (shown_pair pair.now) }
{
    match naming {
        Naming::Modes => {
            let item = component_of(model, pair.name)?;
            let value = value_of(model.model(), Subject::Component(item), pair.value)?;
            Some(Pair { item, value })
        }
        Naming::Values => {
            let item = variable_of(model, pair.name)?;
            let value = value_of(model.model(), Subject::Variable(item), pair.value)?;
            Some(Pair { item, value })
        }
    }
}

/// What each of the pairs stands for, if each stands for something.
pub fn each_pair(
    alloc: Global,
    model: &NamedModel,
    naming: Naming,
    named: &[NamedPair],
) -> Result<Option<List<Pair>>, AllocError>
    ensures { IfOk result (λ pairs.
        pairs ≡ each_pair (stands_for naming model.now) (map shown_pair named.now)) }
{
    let mut pairs = List::new(alloc);
    for one in named {
        match stands_for(model, naming, one) {
            Some(pair) => pairs.push(pair)?,
            None => return Ok(None),
        }
    }
    Ok(Some(pairs))
}
