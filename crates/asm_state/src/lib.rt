//! Values, operations on them, locations, states and update sets.
#![tactic(auto)]

mod argument_lists;
pub mod arguments;
pub mod domain;
pub mod element;
pub mod entries;
pub mod function;
pub mod laws;
mod layout;
pub mod location;
pub mod number;
pub mod operation;
pub mod signature;
pub mod signature_limits;
pub mod state;
pub mod universe;
pub mod value;
pub mod value_code;
pub mod word;
