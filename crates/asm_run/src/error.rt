//! Why a specification didn't run to its end.
ghost use Rattle.std.specs.Prelude.{◌≡◌};
ghost use Rattle.asm_run.specs.code.RefusedRuns.{run_error_of_read, run_error_of_check, run_error_of_script};
ghost use Rattle.asm_run.specs.declared.error.RunError.TheVariants.{Memory, Write};

use crate::sink::SinkFault;
pub use asm_check::{CheckError, FaultKind};
pub use asm_reader::{ReadError, ScriptError};
use asm_syntax::InputError;
use std::alloc::AllocError;
use thiserror::Error;

/// A refusal. The first that applies is returned, in the order `Read`, `Check`, `Script`, `Limits`,
/// and then `Memory` and `Write`; `Memory` can come before any.
#[derive(Debug, Drop, Error)]
pub enum RunError {
    /// The text isn't a specification.
    #[error("the text is refused")]
    Read(ReadError),
    /// The specification has a fault.
    #[error("the specification has a fault")]
    Check(CheckError),
    /// The script isn't one.
    #[error("the script is refused")]
    Script(ScriptError),
    /// A limit is out of its range.
    #[error("a limit is out of its range")]
    Limits,
    /// Memory ran out.
    #[error("memory ran out")]
    Memory,
    /// The sink failed.
    #[error("the trace could not be written")]
    Write,
}

impl From<AllocError> for RunError {
    ghost from_gives = { λ _ e. e ≡ Memory };

    fn from(_e: AllocError) -> RunError {
        RunError::Memory
    }
}

impl From<InputError<ReadError>> for RunError {
    ghost from_gives = { λ refused e. e ≡ run_error_of_read refused };

    fn from(refused: InputError<ReadError>) -> RunError {
        match refused {
            InputError::Memory => RunError::Memory,
            InputError::Named(error) => RunError::Read(error),
        }
    }
}

impl From<InputError<CheckError>> for RunError {
    ghost from_gives = { λ refused e. e ≡ run_error_of_check refused };

    fn from(refused: InputError<CheckError>) -> RunError {
        match refused {
            InputError::Memory => RunError::Memory,
            InputError::Named(error) => RunError::Check(error),
        }
    }
}

impl From<InputError<ScriptError>> for RunError {
    ghost from_gives = { λ refused e. e ≡ run_error_of_script refused };

    fn from(refused: InputError<ScriptError>) -> RunError {
        match refused {
            InputError::Memory => RunError::Memory,
            InputError::Named(error) => RunError::Script(error),
        }
    }
}

impl From<SinkFault> for RunError {
    ghost from_gives = { λ _ e. e ≡ Write };

    fn from(_e: SinkFault) -> RunError {
        RunError::Write
    }
}
