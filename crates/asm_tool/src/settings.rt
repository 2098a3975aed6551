//! What the program is asked to do.
ghost use Rattle.std.specs.Prelude.{◌≡◌};
ghost use Rattle.asm_tool.specs.WordsSaid.{IsFaultOf};
ghost use Rattle.asm_tool.specs.declared.settings.WordFault.TheVariants.{Memory};

use asm_limits::run_limits::Limits;
use clap::Error;
use clap::error::ErrorKind;
use std::alloc::AllocError;

/// What the words ask for.
#[derive(Clone, Copy, Debug, PartialEq, Eq)]
pub struct Settings<'w> {
    /// The name of the text's file, if there is one; else the text is on standard input.
    pub spec: Option<&'w str>,
    /// The name of the script's file, if there is one.
    pub script: Option<&'w str>,
    /// How far the run goes, and how its work is cut.
    pub limits: Limits,
}

/// Why words give no settings.
#[derive(Debug, Drop)]
pub enum WordFault {
    /// Memory ran out.
    Memory,
    /// They ask for help or the version, or can't be understood.
    Words(Error),
}

impl From<AllocError> for WordFault {
    ghost from_gives = { λ _ fault. fault ≡ Memory };

    fn from(_error: AllocError) -> WordFault {
        WordFault::Memory
    }
}

impl From<Error> for WordFault {
    ghost from_gives = { λ error fault. IsFaultOf error fault };

    fn from(error: Error) -> WordFault {
        match error.kind() {
            ErrorKind::OutOfMemory => WordFault::Memory,
            _ => WordFault::Words(error),
        }
    }
}
