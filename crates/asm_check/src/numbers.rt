//! The numbers of what is declared, and the signature.

pub mod body_indices;
pub mod declared_signature;
pub mod numbered_names;
pub mod numbering;
