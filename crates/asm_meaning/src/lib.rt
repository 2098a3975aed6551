//! The meaning of terms, rules and specifications, as definitions for contracts, with its laws.
#![tactic(auto)]

pub mod laws;
