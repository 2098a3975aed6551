//! Specification texts: their tokens and their trees.
#![tactic(auto)]

pub mod error;
mod front;
pub mod input_error;
mod laws;
mod lexer;
pub mod name;
pub mod name_text;
mod numbers;
mod reserved_words;
pub mod rule;
pub mod shared;
pub mod spec;
mod symbols;
pub mod term;
pub mod token;

pub use error::LexError;
pub use input_error::InputError;
pub use laws::{
    no_tokens_beside_a_fault, numbers_in_range, one_fault, one_kind, one_list_of_tokens, one_token,
    tokens_in_order, tokens_or_a_fault,
};
pub use lexer::{MAX_LENGTH, tokens};
pub use token::{Keyword, Kind, Symbol, Token};
