//! What is wrong with a text, and why there is no report.
ghost use Rattle.std.specs.Prelude.{◌≡◌};
ghost use Rattle.asm_explore_words.specs.UnshownRuns.{fault_of_unshown};
ghost use Rattle.asm_explore_words.specs.declared.fault.Fault.TheVariants.{Memory};
ghost use Rattle.asm_explore_words.specs.declared.fault.Unshown.TheVariants as unshown;

use asm_check::CheckError;
use asm_reader::{ReadError, ScriptError};
use std::alloc::{AllocError, AllocFailed};
use std::fmt;
use std::fmt::{Display, Formatter, Write};

/// Where a text came from.
#[derive(Clone, Copy, Debug, PartialEq, Eq)]
pub enum Source<'w> {
    /// The specification's file; `-` is standard input.
    Specification(&'w str),
    /// The script's file; `-` is standard input.
    Script(&'w str),
    /// A condition's file.
    AlwaysFile(&'w str),
    /// The value of this `--always`, from 1.
    Always(usize),
    /// The value of `--deadlock-unless`.
    DeadlockUnless,
    /// The value of `--within`.
    Within,
}

/// What is wrong with a text.
#[derive(Clone, Copy, Debug, PartialEq, Eq)]
pub enum TextError {
    /// It can't be read.
    Read(ReadError),
    /// It can be read, and breaks a rule of the language.
    Check(CheckError),
    /// It is no script.
    Script(ScriptError),
}

/// A text that is refused.
#[derive(Debug, Drop)]
pub struct RefusedText<'w> {
    pub source: Source<'w>,
    pub text: Vec<u8>,
    /// What is wrong.
    pub error: TextError,
    /// Where it is wrong: an offset of this text, or its length.
    pub at: Option<usize>,
}

/// Why there is no report.
#[derive(Debug, Drop)]
pub enum Fault<'w> {
    /// The specification, the script or a condition is refused.
    Text(RefusedText<'w>),
    /// Memory ran out.
    Memory,
    /// The graph of states can't be written to the file of this name.
    Graph(&'w str),
    /// The script to the first quiet state can't be written to the file of this name.
    QuietScript(&'w str),
    /// No function and no location has this name, which is to be shown.
    Name(&'w str),
    /// A run that is to be shown ends otherwise than it was found to, or it is refused though its
    /// texts are not.
    Unconfirmed,
}

/// Why a run can't be shown.
#[derive(Clone, Copy, Debug, PartialEq, Eq)]
pub enum Unshown {
    /// Memory ran out.
    Memory,
    /// The run ends otherwise than it was found to, or it is refused though its texts are not.
    Unconfirmed,
}

impl From<AllocError> for Unshown {
    ghost from_gives = { λ _ made. made ≡ unshown.Memory };

    fn from(_error: AllocError) -> Unshown {
        Unshown::Memory
    }
}

impl<T: Drop> From<AllocFailed<T>> for Unshown {
    ghost from_gives = { λ _ made. made ≡ unshown.Memory };

    fn from(_error: AllocFailed<T>) -> Unshown {
        Unshown::Memory
    }
}

impl<'w> From<Unshown> for Fault<'w> {
    ghost from_gives = { λ why fault. fault ≡ fault_of_unshown why };

    fn from(unshown: Unshown) -> Fault<'w> {
        match unshown {
            Unshown::Memory => Fault::Memory,
            Unshown::Unconfirmed => Fault::Unconfirmed,
        }
    }
}

impl<'w> From<AllocError> for Fault<'w> {
    ghost from_gives = { λ _ fault. fault ≡ Memory };

    fn from(_error: AllocError) -> Fault<'w> {
        Fault::Memory
    }
}

impl<'w, T: Drop> From<AllocFailed<T>> for Fault<'w> {
    ghost from_gives = { λ _ fault. fault ≡ Memory };

    fn from(_error: AllocFailed<T>) -> Fault<'w> {
        Fault::Memory
    }
}

impl Display for Source<'_> {
    fn fmt<W: Write>(&self, f: &mut Formatter<W>) -> fmt::Result {
        match *self {
            Source::Specification("-") | Source::Script("-") => f.write_str("standard input"),
            Source::Specification(name) | Source::Script(name) | Source::AlwaysFile(name) => {
                f.write_str(name)
            }
            Source::Always(number) => write!(f, "condition {number}"),
            Source::DeadlockUnless => f.write_str("--deadlock-unless"),
            Source::Within => f.write_str("--within"),
        }
    }
}
