//! Why the program ends without the whole trace.
ghost use Rattle.std.specs.Prelude.{◌≡◌};
ghost use Rattle.asm_tool.specs.Statuses.{no_words, read_fault, settings_fault, status_of};
ghost use Rattle.asm_tool.specs.declared.fault.Fault.TheVariants.{Memory};

use crate::settings::WordFault;
use asm_files::fault::{NoWords, ReadFault};
use asm_run::error::{CheckError, ReadError, ScriptError};
use std::alloc::AllocError;

/// What ends the program early.
#[derive(Debug, Drop)]
pub enum Fault {
    /// The words ask for help or the version, or can't be understood.
    Words(clap::Error),
    /// A word isn't text.
    NotText,
    /// The text isn't a specification.
    Read(ReadError),
    /// The specification has a fault.
    Check(CheckError),
    /// The script is refused.
    Script(ScriptError),
    /// Memory ran out.
    Memory,
    /// The specification or the script can't be read.
    File,
    /// The trace can't be written.
    Write,
}

impl Fault {
    /// The program's status.
    pub fn status(&self) -> u8
        ensures { result ≡ status_of self.now }
    {
        match self {
            Fault::Read(_) | Fault::Check(_) | Fault::Script(_) => 2,
            Fault::Memory | Fault::File | Fault::Write => 3,
            Fault::Words(_) | Fault::NotText => 4,
        }
    }
}

impl From<NoWords> for Fault {
    ghost from_gives = { λ words fault. fault ≡ no_words words };

    fn from(fault: NoWords) -> Fault {
        match fault {
            NoWords::Memory => Fault::Memory,
            NoWords::NotText => Fault::NotText,
        }
    }
}

impl From<ReadFault> for Fault {
    ghost from_gives = { λ read fault. fault ≡ read_fault read };

    fn from(fault: ReadFault) -> Fault {
        match fault {
            ReadFault::Memory => Fault::Memory,
            ReadFault::File => Fault::File,
        }
    }
}

impl From<WordFault> for Fault {
    ghost from_gives = { λ word fault. fault ≡ settings_fault word };

    fn from(fault: WordFault) -> Fault {
        match fault {
            WordFault::Memory => Fault::Memory,
            WordFault::Words(error) => Fault::Words(error),
        }
    }
}

impl From<AllocError> for Fault {
    ghost from_gives = { λ _ fault. fault ≡ Memory };

    fn from(_error: AllocError) -> Fault {
        Fault::Memory
    }
}
