//! Tests of the public functions of the libraries below `asm_run`, and what the tests of that need
//! too.
#![tactic(auto)]

pub mod beginning;
pub mod checked_text;
#[cfg(test)]
mod checking;
#[cfg(test)]
mod evaluation;
pub mod plain;
#[cfg(test)]
mod pool;
pub mod rules;
#[cfg(test)]
mod signatures;
#[cfg(test)]
mod state;
#[cfg(test)]
mod striped;
#[cfg(test)]
mod syntax;
#[cfg(test)]
mod updates;
