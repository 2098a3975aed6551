//! Summaries of update sets: the least and the greatest value at each location that a set names.
#![tactic(auto)]

mod bounds;
pub mod fault;
pub mod laws;
mod positions;
mod ranges;
pub mod summary;
