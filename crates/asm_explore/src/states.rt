//! The states that a search has reached.

pub mod batch;
pub mod byte;
pub(crate) mod counts;
pub mod deadlocks;
pub mod index;
pub(crate) mod indexed_nodes;
pub mod lookup;
pub mod nodes;
pub mod quiet;
pub mod trail;
