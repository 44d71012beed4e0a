//! The tokens of a line, and what is read from them one after the other. A caller gets exactly the tokens, numbers and
//! names that a line spells, or the place of the first byte that belongs to none.
#![tactic(auto)]

mod ahead;
mod bytes;
mod cursor;
mod name;
mod number;
mod pairs;
mod token;

pub use ahead::Ahead;
pub use cursor::{is_lexeme, is_name_word, name_word_at, names_at, next_is};
pub use name::{is_reserved, read_name};
pub use number::read_number;
pub use pairs::{NamedPair, pair_at, pairs_at};
pub use token::{
    BadByte, Kind, Token, TokenFault, tokens, tokens_are_longest, tokens_are_of_their_kinds,
    tokens_are_parts, tokens_cover,
};
