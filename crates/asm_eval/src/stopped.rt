//! Why an outcome wasn't formed to its end.
ghost use Rattle.std.specs.Prelude.{◌≡◌};
ghost use Rattle.asm_eval.specs.declared.stopped.Stopped.TheVariants as stopped;

use std::alloc::{AllocError, AllocFailed};

/// Why a rule's outcome wasn't formed to its end.
#[derive(Clone, Copy, Debug, PartialEq, Eq)]
pub enum Stopped {
    /// Memory ran out.
    Memory,
    /// There is no set: an `iterate` has made its last turn, the one at the path where the forming
    /// stands.
    Exhausted,
}

impl From<AllocError> for Stopped {
    ghost from_gives = { λ _ e. e ≡ stopped.Memory };

    fn from(_e: AllocError) -> Stopped {
        Stopped::Memory
    }
}

impl<T: Drop> From<AllocFailed<T>> for Stopped {
    ghost from_gives = { λ _ e. e ≡ stopped.Memory };

    fn from(_e: AllocFailed<T>) -> Stopped {
        Stopped::Memory
    }
}
