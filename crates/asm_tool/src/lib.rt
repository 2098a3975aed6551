//! The program over any reader and writers: its words, its files, its trace and its status.
#![tactic(auto)]

pub mod command_line;
pub mod fault;
mod fault_line;
mod help;
pub mod settings;
pub mod status;
