//! Functions as they are declared.
use crate::domain::Domain;
use crate::entries::Entries;
use crate::word::Word;

/// Whether a function is held in the state or is a fixed table.
#[derive(Clone, Copy, Debug, PartialEq, Eq)]
pub enum FunctionKind {
    Controlled,
    Static,
}

/// What a function's argument lists have as their values: one value for all, or entries, and
/// `Undef` if there is none. For a controlled function these are the initial values.
#[derive(Debug, Drop)]
pub enum Table {
    Same(Word),
    Entries(Entries),
}

/// A function that is held in the state, or a fixed table.
#[derive(Debug, Drop)]
pub struct Function {
    pub kind: FunctionKind,
    pub domain: Domain,
    pub table: Table,
}
