//! What names stand for.
use crate::names::declared_bodies::{DerivedBody, RuleBody};
use asm_state::number::Number;
use asm_syntax::name::Name;

/// What a name is declared as. An element belongs to the enumeration that is
/// this item of the specification.
#[derive(Clone, Copy)]
pub(crate) enum DeclaredAs<'a> {
    Predeclared,
    Range { first: Number, last: Number },
    Enumeration(usize),
    Element(usize),
    Controlled(&'a [Name]),
    Static(&'a [Name]),
    Derived(DerivedBody<'a>),
    Rule(RuleBody<'a>),
}

/// A declaration that counts, with the offset of its name.
#[derive(Clone, Copy)]
pub(crate) struct Declaration<'a> {
    pub at: usize,
    pub meaning: DeclaredAs<'a>,
}
