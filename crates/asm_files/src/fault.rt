//! Why words or a text can't be had.
ghost use Rattle.std.specs.Prelude.{◌≡◌};
ghost use Rattle.std.specs.IoError.{error_kind};
ghost use Rattle.asm_files.specs.Faults.{fault_of_read, fault_of_words};
ghost use Rattle.asm_files.specs.declared.fault.NoWords.TheVariants.{Memory};

use std::alloc::AllocError;
use std::io;

/// Why the words that a program is called with can't be had.
#[derive(Clone, Copy, Debug, PartialEq, Eq)]
pub enum NoWords {
    /// Memory ran out.
    Memory,
    /// A word isn't text.
    NotText,
}

/// Why a text can't be had.
#[derive(Clone, Copy, Debug, PartialEq, Eq)]
pub enum ReadFault {
    /// Memory ran out.
    Memory,
    /// A file can't be opened, or a read failed.
    File,
}

impl NoWords {
    /// The fault of words for which the system has this error.
    pub fn of(error: &io::Error) -> NoWords
        ensures { result ≡ fault_of_words (error_kind error.now) }
    {
        match error.kind() {
            io::ErrorKind::OutOfMemory => NoWords::Memory,
            _ => NoWords::NotText,
        }
    }
}

impl ReadFault {
    /// The fault of a file that can't be opened, or of a read that failed.
    pub fn of(error: &io::Error) -> ReadFault
        ensures { result ≡ fault_of_read (error_kind error.now) }
    {
        match error.kind() {
            io::ErrorKind::OutOfMemory => ReadFault::Memory,
            _ => ReadFault::File,
        }
    }
}

impl From<AllocError> for NoWords {
    ghost from_gives = { λ _ fault. fault ≡ Memory };

    fn from(_error: AllocError) -> NoWords {
        NoWords::Memory
    }
}
