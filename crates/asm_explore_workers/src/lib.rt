//! Exploration by several workers, which list the outcomes of many states at once.
#![tactic(auto)]

mod exploration_by_workers;
mod job;
mod look_by;
mod looks_ahead_by;

pub use exploration_by_workers::explore_all_by;
pub use looks_ahead_by::LooksAheadBy;
