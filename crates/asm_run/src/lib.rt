//! Runs of specifications, from the bytes of their texts to the bytes of their traces.
#![tactic(auto)]

mod add_set;
mod buffer;
pub mod end;
pub mod end_words;
pub mod error;
mod finish;
pub mod hand;
pub mod job;
pub mod laws;
mod line;
mod location_texts;
pub mod locations;
pub mod pooled;
mod put_set;
mod region;
mod rounds;
pub mod run;
pub mod sink;
mod step;
mod step_end;
mod steps;
pub mod through;
mod trace;
mod update_line;
mod work_budget;
mod write_all;
