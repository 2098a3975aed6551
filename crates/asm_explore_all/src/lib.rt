//! What the command `all` of `asm-explore` reports.
#![tactic(auto)]

pub mod all_report;
pub mod checked_question;
mod facts;
pub mod files;
mod finding_line;
mod graph_file;
mod known_names;
mod quiet_file;
