//! A step, under the choices of a script.
ghost use Rattle.std.specs.Prelude.{◌≡◌, false, true, IfOk, IsTrue};
ghost use Rattle.asm_state.specs.code.Contents.{IsStateOf};
ghost use Rattle.asm_state.specs.Signature.{state_of};
ghost use Rattle.asm_explore.specs.code.ResolvedConditions.{IsSpecified};
ghost use Rattle.asm_random.specs.code.WrongSteps.{MakesStep};
ghost use Rattle.asm_random.specs.code.ResolvedRuns.{IsDead, IsPassed, right_in, shape_in, specification_in};

use crate::deadlock::is_deadlock;
use crate::position::Position;
use asm_eval::Choices;
use asm_explore::{Fault, Machine, ResolvedQuestion, is_same_state};
use asm_reader::Picks;
use asm_state::state::State;
use asm_step::{ResolvedSpecification, Step, make_step};
use std::alloc::{AllocError, Global};

/// The state that the step leads to, if it isn't faulty.
fn next_state<P: Picks>(
    alloc: Global,
    specified: &ResolvedQuestion<'_>,
    choices: &Choices<'_, P>,
    state: &State,
) -> Result<Result<State, Fault>, AllocError>
    requires sound { IsSpecified specified.now }
    requires state { IsStateOf (shape_in specified.now) state.now }
    ensures { let m = specified.now in
        IfOk result (MakesStep (specification_in m) m.turns (P.script choices.now.script.now) (right_in m) (IsDead m) (λ next. next) choices.now.step (shape_in m) state.now) }
{
    let resolved = ResolvedSpecification {
        checked: specified.checked,
        code: specified.code,
        turns: specified.turns,
    };
    let made = make_step(alloc, &resolved, choices, state)?;
    match made {
        Step::Next(next) => Ok(Ok(next)),
        Step::Faulty(_) => Ok(Err(Fault::Inconsistent)),
        Step::Exhausted(_) => Ok(Err(Fault::Exhausted)),
    }
}

/// Whether the state from which a step was made is seen to be a deadlock. This is looked at if the
/// step left it as it was, and the one before it didn't.
fn began_in_deadlock(
    alloc: Global,
    specified: &ResolvedQuestion<'_>,
    at: &Position,
    stays: bool,
) -> Result<bool, AllocError>
    requires sound { IsSpecified specified.now }
    requires state { IsStateOf (shape_in specified.now) at.now.state }
    ensures stays { IfOk result (λ so. IsTrue so → stays ≡ true) }
    ensures so { IfOk result (λ so. IsTrue so → IsDead specified.now (state_of (shape_in specified.now) at.now.state)) }
    ensures passed { let P = IsPassed specified.now (state_of (shape_in specified.now) at.now.state) in
        (at.now.stays ≡ true → P) → IfOk result (λ so. so ≡ false → stays ≡ true → P) }
{
    if !stays || at.stays {
        return Ok(false);
    }
    is_deadlock(alloc, specified, &at.state)
}

/// Where the step leads, if it isn't faulty, the state is right, and the one in which the step
/// began isn't seen to be a deadlock.
pub(crate) fn step_from<P: Picks>(
    alloc: Global,
    specified: &ResolvedQuestion<'_>,
    choices: &Choices<'_, P>,
    at: &Position,
) -> Result<Result<Position, Fault>, AllocError>
    requires sound { IsSpecified specified.now }
    requires state { IsStateOf (shape_in specified.now) at.now.state }
    ensures step { let m = specified.now in
        IfOk result (MakesStep (specification_in m) m.turns (P.script choices.now.script.now) (right_in m) (IsDead m) (λ next. next.state) choices.now.step (shape_in m) at.now.state) }
    ensures right { IfOk result (λ ended. IfOk ended (λ next. right_in specified.now (state_of (shape_in specified.now) next.state) ≡ true)) }
    ensures stays { IfOk result (λ ended. IfOk ended (λ next. next.stays ≡ true → next.state ≡ at.now.state)) }
    ensures passed { let P = IsPassed specified.now (state_of (shape_in specified.now) at.now.state) in
        (at.now.stays ≡ true → P) → IfOk result (λ ended. IfOk ended (λ next. P)) }
{
    let state = match next_state(alloc, specified, choices, &at.state)? {
        Ok(state) => state,
        Err(fault) => return Ok(Err(fault)),
    };
    if !specified.is_right(alloc, &state) {
        return Ok(Err(Fault::Wrong));
    }
    let stays = is_same_state(&at.state, &state, specified.checked.signature().count());
    if began_in_deadlock(alloc, specified, at, stays)? {
        return Ok(Err(Fault::Deadlock));
    }
    Ok(Ok(Position { state, stays }))
}
