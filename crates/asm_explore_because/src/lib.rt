//! Why a condition isn't true in a state: the innermost part of it that decides, the values of the
//! names that are bound there, and what that part reads.
#![tactic(auto)]

pub mod because;
mod bound_name;
mod chains;
mod elements;
pub mod laws;
mod line;
mod next;
mod part;
mod reads;
mod scene;
mod term_text;
mod truths;
mod value_under;
