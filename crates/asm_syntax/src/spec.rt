//! Whole specifications.
use crate::name::Name;
use crate::rule::Rule;
use crate::term::{Literal, Term};
use asm_state::function::FunctionKind;
use asm_state::number::Number;

/// A constant in a table.
#[derive(Drop)]
pub enum Const {
    Plain(Literal),
    Element(Name),
}

/// An entry of a table, with the offset of its `(`.
#[derive(Drop)]
pub struct Entry {
    pub at: usize,
    pub arguments: Vec<Const>,
    pub value: Const,
}

/// What a function is at the beginning: one constant for all arguments, or a table.
#[derive(Drop)]
pub enum Given {
    Each(Const),
    Entries(Vec<Entry>),
}

/// A declaration, or another line of a specification.
#[derive(Drop)]
pub enum Item {
    Uses(Name),
    Init(Name),
    Enum {
        name: Name,
        elements: Vec<Name>,
    },
    Universe {
        name: Name,
        first: Number,
        last: Number,
    },
    Function {
        name: Name,
        kind: FunctionKind,
        domain: Vec<Name>,
        codomain: Option<Name>,
        table: Option<Given>,
    },
    Derived {
        name: Name,
        parameters: Vec<Name>,
        body: Term,
    },
    Rule {
        name: Name,
        parameters: Vec<Name>,
        body: Rule,
    },
}

/// A specification, with the length of its text in bytes.
#[derive(Drop)]
pub struct Spec {
    pub name: Name,
    pub items: Vec<Item>,
    pub length: usize,
}
