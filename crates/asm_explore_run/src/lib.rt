//! What the commands `choices`, `clash` and `show` of `asm-explore` report of one run, and what a
//! report shows of a run that is found.
#![tactic(auto)]

mod asked_end;
mod assignment_line;
mod choice_entries;
pub mod choices_report;
mod choose_line;
pub mod clash_report;
mod clash_text;
mod line_keys;
pub mod printed_run;
mod run_end;
pub mod show_report;
mod show_text;
mod shown_assignments;
mod shown_end;
mod shown_text;
mod unmet_lines;
