//! What a pool returns.
ghost use Rattle.std.specs.Prelude.{◌≡◌};
ghost use Rattle.asm_pool.specs.declared.pool_result.PoolError.TheVariants as pool_error;

use std::alloc::{AllocError, AllocFailed};

/// The outs by the numbers of their tasks. By worker: its hand, and the numbers of the tasks that
/// it ran, in its order.
#[derive(Drop)]
pub struct PoolResult<Hand, Out> {
    pub outs: Vec<Out>,
    pub hands: Vec<Hand>,
    pub lists: Vec<Vec<usize>>,
}

/// Why a pool has no result. Each worker that was started has ended.
#[derive(Clone, Copy, Debug, PartialEq, Eq)]
pub enum PoolError {
    /// Memory ran out.
    Memory,
}

impl From<AllocError> for PoolError {
    ghost from_gives = { λ _ e. e ≡ pool_error.Memory };

    fn from(_e: AllocError) -> PoolError {
        PoolError::Memory
    }
}

impl<T: Drop> From<AllocFailed<T>> for PoolError {
    ghost from_gives = { λ _ e. e ≡ pool_error.Memory };

    fn from(_e: AllocFailed<T>) -> PoolError {
        PoolError::Memory
    }
}
