//! Which assignments' updates stand at a location, in the set that a step yields, and those that a
//! run ends by.
#![tactic(auto)]

mod assigned;
pub mod assignment;
mod bound_values;
pub mod clash;
mod fault_assignments;
pub mod found;
pub mod laws;
pub mod sought;
pub mod standing;
