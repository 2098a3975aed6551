//! Arguments of a command line: how they are stated, and what is read of them.
#![tactic(auto)]

pub mod numbers;
