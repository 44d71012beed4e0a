//! A list with room for so many items, which is made once: afterwards it takes no memory, so no call of it can fail.
#![tactic(auto)]

mod bounded_list;
mod bounded_rows;

pub use bounded_list::BoundedList;
pub use bounded_rows::BoundedRows;
