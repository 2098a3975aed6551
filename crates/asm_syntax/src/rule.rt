//! Rules.
use crate::name::Name;
use crate::term::Term;

/// The location into which a called rule's result goes: a function with its arguments.
#[derive(Drop)]
pub struct Target {
    pub name: Name,
    pub arguments: Vec<Term>,
}

/// A rule.
#[derive(Drop)]
pub enum Rule {
    Skip,
    Assign {
        name: Name,
        arguments: Vec<Term>,
        value: Term,
    },
    /// A call, or `target <- name(arguments)`.
    Call {
        target: Option<Target>,
        name: Name,
        arguments: Vec<Term>,
    },
    Par(Vec<Rule>),
    Seq(Vec<Rule>),
    If {
        test: Term,
        yes: Box<Rule>,
        no: Option<Box<Rule>>,
    },
    Let {
        name: Name,
        value: Term,
        body: Box<Rule>,
    },
    Forall {
        name: Name,
        over: Name,
        test: Option<Term>,
        body: Box<Rule>,
    },
    Choose {
        name: Name,
        over: Name,
        test: Option<Term>,
        body: Box<Rule>,
        none: Option<Box<Rule>>,
    },
    Iterate(Box<Rule>),
    While {
        test: Term,
        body: Box<Rule>,
    },
    /// `result := value`. The name is the word `result`.
    SetResult {
        name: Name,
        value: Term,
    },
}
