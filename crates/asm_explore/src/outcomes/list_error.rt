//! Why a list wasn't made.
ghost use Rattle.std.specs.Prelude.{◌≡◌};
ghost use Rattle.asm_explore.specs.declared.outcomes.list_error.ListError.TheVariants as overflow;

use std::alloc::{AllocError, AllocFailed};

/// Why a list of outcomes wasn't made.
#[derive(Clone, Copy, Debug, PartialEq, Eq)]
pub enum ListError {
    /// Memory ran out.
    Memory,
    /// There are more of them than the limit says.
    TooMany,
}

impl From<AllocError> for ListError {
    ghost from_gives = { λ _ e. e ≡ overflow.Memory };

    fn from(_e: AllocError) -> ListError {
        ListError::Memory
    }
}

impl<T: Drop> From<AllocFailed<T>> for ListError {
    ghost from_gives = { λ _ e. e ≡ overflow.Memory };

    fn from(_e: AllocFailed<T>) -> ListError {
        ListError::Memory
    }
}
