//! The limits of a run, and the numbers that they can be.
#![tactic(auto)]

pub mod run_limits;
