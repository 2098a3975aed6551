//! The program `asm-explore` over any reader and writers: its words, its files, what it prints and
//! its status.
#![tactic(auto)]

mod buffered_writer;
mod explain;
pub mod files;
mod given_texts;
pub mod no_answer;
mod progress_lines;
mod reports;
mod run_texts;
pub mod status;
mod written;
