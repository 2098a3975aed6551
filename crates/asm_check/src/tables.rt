//! The entries of tables.

pub mod entry_faults;
