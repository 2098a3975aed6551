//! Codes, which are terms and rules without names: names are positions in them, and functions
//! numbers of locations. What they stand for, and what they are worth.
//!
//! A name that is bound becomes a position, counted from the innermost binder, which has 0. In the
//! body of a rule each argument of the call has a position, after `result` if the call has a
//! target; in the body of a derived function each parameter has one. Neither body sees a name that
//! is bound where it is used.
#![tactic(auto)]

pub mod code;
pub mod laws;
pub mod modulus;
pub mod rule_code;
