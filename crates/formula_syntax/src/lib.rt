//! The text of formulas: its grammar, what it means in a model, and a parser by operator precedence with its own stack. What a
//! text spells is read as what it means, or its least code is answered, and nothing else is read.
#![tactic(auto)]

mod atom;
mod atom_steps;
mod formula;
mod formula_parser;
mod level;
mod lookup;
mod named_model;
mod places;
mod read_part;
mod read_parts;
mod steps;
mod transitions;

pub use formula::{read_formula, read_strictly, texts_are_read_one_way};
pub use lookup::{place_of, value_of};
pub use named_model::NamedModel;
pub use read_part::ReadPart;
