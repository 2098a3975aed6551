//! Deadlocks.
ghost use Rattle.std.specs.Prelude.{◌≡◌, false, IfOk, IsTrue};
ghost use Rattle.asm_state.specs.code.Contents.{IsStateOf};
ghost use Rattle.asm_state.specs.Signature.{state_of};
ghost use Rattle.asm_explore.specs.code.ResolvedConditions.{IsSpecified};
ghost use Rattle.asm_random.specs.code.ResolvedRuns.{IsDead, IsPassed, shape_in};

use asm_explore::laws::over_limit;
use asm_explore::{Machine, ResolvedQuestion, SearchError};
use asm_state::state::State;
use std::alloc::{AllocError, Global};

/// Whether the state is seen to be a deadlock: whatever is chosen, the step from it changes
/// nothing, and a run may not rest in it. Of a step with too many outcomes nothing is seen.
pub(crate) fn is_deadlock(
    alloc: Global,
    specified: &ResolvedQuestion<'_>,
    state: &State,
) -> Result<bool, AllocError>
    requires sound { IsSpecified specified.now }
    requires state { IsStateOf (shape_in specified.now) state.now }
    ensures so { IfOk result (λ so. IsTrue so → IsDead specified.now (state_of (shape_in specified.now) state.now)) }
    ensures passed { IfOk result (λ so. so ≡ false → IsPassed specified.now (state_of (shape_in specified.now) state.now)) }
{
    over_limit();
    if specified.may_rest(alloc, state) {
        return Ok(false);
    }
    match specified.is_quiet(alloc, state) {
        Ok(quiet) => Ok(quiet),
        Err(SearchError::Memory) => Err(AllocError),
        Err(SearchError::Outcomes(_)) => Ok(false),
        Err(SearchError::States) => unreachable!(),
    }
}
