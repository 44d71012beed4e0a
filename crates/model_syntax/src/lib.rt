//! The lines of a model, read one after the other. A line makes of the model exactly what its form says, or is refused with
//! the least code that applies, and then the reader is as it was. What is printed of a model is read as that model.
#![tactic(auto)]

mod checks;
mod faults;
mod indexed_model;
mod item;
mod item_lines;
mod laws;
mod line_end;
mod lines;
mod model_reader;
mod moves;
mod print;
mod print_formula;
mod print_laws;
mod print_names;
mod printer;
mod shorter;
mod token_lines;
mod words;

pub use formula_syntax::{read_formula, texts_are_read_one_way};
pub use item::{lines_are_spelled, number_at};
pub use laws::{lines_keep_models_good, lines_lead_one_way, repairs_have_codes};
pub use line_end::LineEnd;
pub use model_reader::ModelReader;
pub use print::print_model;
pub use print_laws::{joined_are_tokens, printed_models_read_back};
pub use print_names::name_at;
pub use shorter::lines_are_no_longer;
