//! Forms whose lines each ask for something: a form says what a line says and what is done for it, and one machine takes the lines
//! of all of them. What lines do is the items that they say, in order, their texts one behind the other, and how they end.
#![tactic(auto)]

mod kept;
mod laws;
mod line_form;
mod lines;
mod place;

pub use kept::kept_line;
pub use laws::lines_are_done;
pub use line_form::{LineForm, OpensLines};
pub use lines::Lines;
pub use place::placed;
