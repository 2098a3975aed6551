//! Why a specification isn't well formed.
ghost use Rattle.std.specs.Prelude.{◌≡◌};
ghost use Rattle.asm_check.specs.Errors.{number_of};

/// What a specification can have wrong, once it is read.
#[derive(Clone, Copy, Debug, PartialEq, Eq)]
pub enum FaultKind {
    /// A name is declared that was declared before, or a parameter is named twice in one list.
    Twice,
    /// Nothing that could stand here has this name.
    Unknown,
    /// Another number of arguments than it has.
    Arity,
    /// The target of an assignment is no controlled function.
    NotControlled,
    /// Calls of a rule lead back to it.
    CyclicRule,
    /// Uses of a derived function lead back to it.
    CyclicDerived,
    /// Another main rule, none, or one that there isn't.
    Init,
    /// A limit is passed.
    TooMany,
    /// An entry of a table isn't in the domain, or is there twice.
    TableEntry,
    /// `result` outside of a rule, or a rule with `result` that is called without
    /// a target, or is the main rule.
    ResultUse,
}

/// The fault that is first in a specification, and where: the offset of a name, or of an entry's
/// `(`, or the length of the text if it has no `init`.
#[derive(Clone, Copy, Debug, PartialEq, Eq)]
pub struct CheckError {
    pub kind: FaultKind,
    pub at: usize,
}

impl CheckError {
    /// The number by which the fault is known, from 8 to 17.
    pub fn number(self) -> u8
        ensures { result ≡ number_of self.kind }
    {
        match self.kind {
            FaultKind::Twice => 8,
            FaultKind::Unknown => 9,
            FaultKind::Arity => 10,
            FaultKind::NotControlled => 11,
            FaultKind::CyclicRule => 12,
            FaultKind::CyclicDerived => 13,
            FaultKind::Init => 14,
            FaultKind::TooMany => 15,
            FaultKind::TableEntry => 16,
            FaultKind::ResultUse => 17,
        }
    }
}
