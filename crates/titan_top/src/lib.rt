//! The top call: from words and bytes to bytes. A caller gets exactly the text and the status that the words and the
//! input lead to, line by line as the input comes, or after a fault, or out of memory, a front of that text.
#![tactic(auto)]

mod laws;
mod status;
mod top;
mod trial;
mod words;

pub use laws::{
    forms_do_what_they_mean, forms_keep_their_promises, migrations_run_alike, outcomes_are_one,
    outcomes_fit, own_traces_are_checked, printed_texts_read_back, promises_by_name,
    runs_have_own_traces, sure_text_begins, texts_are_outcomes, words_are_forms,
};
pub use status::Status;
pub use top::titan;
