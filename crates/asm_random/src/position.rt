//! Where a run has come to.
ghost use Rattle.std.specs.Prelude.{◌≡◌, false, IfOk};
ghost use Rattle.asm_state.specs.code.Contents.{IsStateOf};
ghost use Rattle.asm_state.specs.Signature.{state_of};
ghost use Rattle.asm_random.specs.code.ResolvedRuns.{shape_in, specification_in};

use asm_explore::ResolvedQuestion;
use asm_state::state::State;
use std::alloc::{AllocError, Global};

/// Where a run has come to.
#[derive(Drop)]
pub(crate) struct Position {
    pub(crate) state: State,
    /// Whether the last step left the state as it was.
    pub(crate) stays: bool,
}

impl Position {
    /// Where each run begins.
    pub(crate) fn first(
        alloc: Global,
        specified: &ResolvedQuestion<'_>,
    ) -> Result<Position, AllocError>
        ensures kept { IfOk result (λ at. IsStateOf (shape_in specified.now) at.state) }
        ensures initial { IfOk result (λ at. state_of (shape_in specified.now) at.state ≡ (specification_in specified.now).initial) }
        ensures fresh { IfOk result (λ at. at.stays ≡ false) }
    {
        let state = State::initial(alloc, specified.checked.signature())?;
        Ok(Position {
            state,
            stays: false,
        })
    }
}
