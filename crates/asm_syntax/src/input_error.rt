//! Why a call that allocates returns no result.

ghost use Rattle.std.specs.Prelude.{◌≡◌};
ghost use Rattle.asm_syntax.specs.declared.input_error.InputError.TheVariants.{Memory};

use std::alloc::{AllocError, AllocFailed};

/// Memory ran out, or the input has a fault.
#[derive(Debug, Drop)]
pub enum InputError<E> {
    /// Memory ran out, which says nothing of the input.
    Memory,
    /// What is wrong with the input.
    Named(E),
}

impl<E: Drop> From<AllocError> for InputError<E> {
    ghost from_gives = { λ _ e. e ≡ Memory };

    fn from(_e: AllocError) -> InputError<E> {
        InputError::Memory
    }
}

impl<T: Drop, E: Drop> From<AllocFailed<T>> for InputError<E> {
    ghost from_gives = { λ _ e. e ≡ Memory };

    fn from(_e: AllocFailed<T>) -> InputError<E> {
        InputError::Memory
    }
}
