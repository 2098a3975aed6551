//! What comes in and goes out: words, files by their names, readers, and an output behind a buffer, and
//! whole texts on their way to a sink.
#![tactic(auto)]

pub mod fault;
pub mod folder;
pub mod input;
pub mod output;
pub mod whole;
