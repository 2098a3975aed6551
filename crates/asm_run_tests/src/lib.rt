//! Tests of the public functions of `asm_run`.
#![tactic(auto)]

#[cfg(test)]
mod regions;
#[cfg(test)]
mod runs;
