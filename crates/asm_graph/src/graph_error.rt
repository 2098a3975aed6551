//! Why there is no graph.
ghost use Rattle.std.specs.Prelude.{◌≡◌};
ghost use Rattle.asm_graph.specs.declared.graph_error.GraphError.TheVariants as refused;

use std::alloc::{AllocError, AllocFailed};

/// Why there is no graph.
#[derive(Clone, Copy, Debug, PartialEq, Eq)]
pub enum GraphError {
    /// Memory ran out.
    Memory,
    /// There are more states than the limit says.
    TooMany,
}

impl From<AllocError> for GraphError {
    ghost from_gives = { λ _ e. e ≡ refused.Memory };

    fn from(_e: AllocError) -> GraphError {
        GraphError::Memory
    }
}

impl<T: Drop> From<AllocFailed<T>> for GraphError {
    ghost from_gives = { λ _ e. e ≡ refused.Memory };

    fn from(_e: AllocFailed<T>) -> GraphError {
        GraphError::Memory
    }
}
