//! The texts that `asm-explore` is given: conditions as terms, scripts, and places in a text.
#![tactic(auto)]

mod characters;
pub mod comment;
pub mod condition;
pub mod conditions;
pub mod excerpt;
mod first_name;
pub mod position;
pub mod position_text;
pub mod rule_in_text;
pub mod run_numbers;
pub mod script_given;
pub mod variable_at;
