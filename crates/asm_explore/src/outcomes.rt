//! The outcomes of a rule through all scripts.

pub mod add_outcome;
pub mod below;
pub mod beside;
pub mod candidate_outcomes;
pub mod candidates;
pub mod chain;
pub mod choice_list;
pub mod choiceless;
pub mod leaf_outcomes;
pub mod list_error;
pub mod list_outcomes;
pub mod listed_outcome;
pub mod outcomes_error;
pub mod over_limit;
pub mod sequence_outcomes;
pub mod sets;
