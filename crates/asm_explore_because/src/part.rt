//! A part of a condition.
use crate::bound_name::BoundName;
use asm_syntax::term::Term;

/// A term that a condition is made of, and what is wanted of it.
#[derive(Drop)]
pub(crate) struct Part<'e> {
    pub term: &'e Term,
    /// The names that are bound there, the innermost first.
    pub bound: Vec<BoundName<'e>>,
    /// The truth value that the term is to have.
    pub wanted: bool,
    /// Whether only the opposite truth value counts against it, and no other value does.
    pub strictly: bool,
}
