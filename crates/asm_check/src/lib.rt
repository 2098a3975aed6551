//! Whether a specification is well formed.
#![tactic(auto)]

mod checked;
mod checking;
mod error;
pub mod laws;
mod least_fault;
pub mod shared;
mod term_checking;

pub use checked::{Checked, NameNumber};
pub use checking::check;
pub use error::{CheckError, FaultKind};

mod cycles;
mod limits;
mod names;
mod numbers;
mod tables;
mod uses;
