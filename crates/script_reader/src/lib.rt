//! Lines of a script: their grammar, and the event that each asks for. A line gives exactly its event, or the least code that
//! applies to it for the observations that are pending and the variables that are mirrored.
#![tactic(auto)]

mod asked;
mod asking;
mod context;
mod event_codes;
mod event_line;
mod found;
mod item;
mod laws;
mod named;

pub use asked::Asked;
pub use asking::read_event_in;
pub use context::Context;
pub use event_codes::{has_broken, has_item_twice, observe_code};
pub use event_line::{read_event, read_event_by, read_named_event};
pub use formula_syntax::NamedModel;
pub use item::{Item, item_of, only_pairs};
pub use laws::{goals_are_left_out, least_codes_are_answered, lines_are_spelled, lines_say_items};
pub use named::{Naming, each_pair, stands_for};
