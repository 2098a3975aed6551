//! The uses of names, and what is wrong with them; main rules.

pub mod collector;
pub mod declaration_uses;
pub mod main_rule;
pub mod roles;
pub mod rules_with_result;
pub mod term_faults;
pub mod use_faults;
