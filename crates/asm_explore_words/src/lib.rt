//! The words after `asm-explore`, what they ask for, and what is wrong with words and texts.
#![tactic(auto)]

mod arguments;
pub mod command_line;
mod commands;
pub mod fault;
mod help;
mod number_options;
mod random_words;
pub mod sentences;
pub mod settings;
mod show_words;
mod text_options;
