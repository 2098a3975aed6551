//! What the command `random` of `asm-explore` reports.
#![tactic(auto)]

pub mod drawn_script;
pub mod random_asked;
mod random_facts;
pub mod random_report;
