//! What is wrong with a text, in a sentence.
use crate::fault::TextError;
use asm_check::FaultKind;
use asm_reader::{ReadError, ScriptError};
use asm_syntax::LexError;
use std::fmt;
use std::fmt::{Display, Formatter, Write};

impl Display for TextError {
    fn fmt<W: Write>(&self, f: &mut Formatter<W>) -> fmt::Result {
        match self {
            TextError::Read(error) => write!(f, "read {}: {}", error.number(), of_reader(*error)),
            TextError::Check(error) => {
                write!(f, "check {}: {}", error.number(), of_checker(error.kind))
            }
            TextError::Script(error) => {
                write!(f, "script {}: {}", error.number(), of_script(*error))
            }
        }
    }
}

fn of_reader(error: ReadError) -> &'static str {
    match error {
        ReadError::Lex(error) => of_bytes(error),
        ReadError::Unexpected { .. } => {
            "this can't stand here: often something before it, as an end word, is missing"
        }
        ReadError::UnexpectedEnd => {
            "the text ends too early: an end word, as `endif`, or a `)` is missing"
        }
        ReadError::TooDeep { .. } => {
            "this opens a 65th level: make the inner part a rule or a derived function"
        }
    }
}

fn of_script(error: ScriptError) -> &'static str {
    match error {
        ScriptError::BadLine { .. } => {
            "this isn't a step or `*`, a path as `0.1` or `-`, and a number, with a space between each two"
        }
        ScriptError::Repeated { .. } => {
            "a line before this one has the same step, or `*`, and the same path"
        }
        ScriptError::TooLong => "this has more than 1,048,576 bytes",
    }
}

fn of_bytes(error: LexError) -> &'static str {
    match error {
        LexError::TooLong => "this has more than 1,048,576 bytes",
        LexError::BadByte { .. } => {
            "no token begins with this; the language has no semicolons, quotes or fractions"
        }
        LexError::OpenComment { .. } => {
            "this comment isn't closed: close it with `*/`, or begin it with `//`"
        }
        LexError::BadNumber { .. } => {
            "this number is above 100000000000000000, or a letter or `_` follows it at once"
        }
    }
}

fn of_checker(kind: FaultKind) -> &'static str {
    match kind {
        FaultKind::Twice => "this name is taken already: use another here",
        FaultKind::Unknown => {
            "nothing that could stand here has this name: look at its spelling, or declare it"
        }
        FaultKind::Arity =>
            "this takes another number of arguments; elements and bound names take none",
        FaultKind::NotControlled => {
            "only a controlled function can be assigned to, and this is none"
        }
        FaultKind::CyclicRule => {
            "this rule calls itself, perhaps by way of others: use a `while` in place of that"
        }
        FaultKind::CyclicDerived => {
            "this function uses itself, perhaps by way of others: use a rule with a `while`"
        }
        FaultKind::Init => "the text needs one `init`, which names a rule without parameters",
        FaultKind::TooMany => {
            "with this declaration a limit is passed: make a universe smaller, or declare less"
        }
        FaultKind::TableEntry => {
            "the arguments of this entry aren't in the domain, or stand in an earlier entry"
        }
        FaultKind::ResultUse => {
            "a rule with `result` is called by `<-` alone, and a derived function has no `result`"
        }
    }
}
