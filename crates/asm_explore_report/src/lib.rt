//! What the reports of `asm-explore` have in common: comments before a script, words for a fault,
//! the run that is shown, and the conditions that are asked.
#![tactic(auto)]

mod broken_condition;
pub mod broken_run;
pub mod checked_text;
pub mod command;
pub mod commented;
mod confirm_run;
pub mod ended;
pub mod facts;
pub mod fault_words;
pub mod first_line;
pub mod laws;
pub mod printed;
pub mod report;
pub mod shown_run;
pub mod told;
pub mod trace_lines;
