//! The limits of what a specification declares.

pub mod limit_faults;
