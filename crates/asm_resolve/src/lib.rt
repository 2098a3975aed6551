//! The pass, which makes codes of the terms and rules of a specification, with the meaning of those
//! in the text.
#![tactic(auto)]

pub mod bodies;
mod functions;
pub mod laws;
pub mod main_rule;
mod make;
pub mod parameters;
pub mod resolve;
pub mod resolve_rule;
pub mod scope;
mod used;
