//! Specifications and scripts, from their texts.
#![tactic(auto)]

mod contents;
mod cursor;
pub mod error;
mod items;
mod laws;
mod names;
mod parser;
mod path_numbers;
pub mod picks;
mod reading;
mod rules;
pub mod script;
pub mod script_error;
pub mod script_line;
mod script_reading;
mod term_reading;
mod terms;

pub use error::ReadError;
pub use laws::{
    no_script_beside_a_refusal, no_term_beside_a_refusal, no_tree_beside_a_refusal, old_scripts,
    old_texts, one_refusal, one_script, one_script_refusal, one_term, one_term_refusal, one_tree,
    one_tree_of_tokens, pick_line, script_lines, script_or_a_refusal, term_or_a_refusal,
    tree_or_a_refusal,
};
pub use picks::Picks;
pub use reading::read;
pub use script::Script;
pub use script_error::ScriptError;
pub use script_reading::{MAX_SCRIPT, read_script};
pub use term_reading::read_term;
