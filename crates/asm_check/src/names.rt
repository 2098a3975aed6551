//! Declared names, and the tables in which they are found.

pub mod declared_as;
pub mod declared_bodies;
pub mod first_names;
pub mod guessed_indices;
pub mod name_hash;
pub mod name_table;
