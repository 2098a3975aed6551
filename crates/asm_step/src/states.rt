//! The states of a run.
ghost use Rattle.std.specs.Prelude.{◌≡◌, IfNone, IfOk, IfSome};
ghost use Rattle.asm_state.specs.code.Contents.{IsStateOf};
ghost use Rattle.asm_state.specs.Signature.{state_of};
ghost use Rattle.asm_meaning.specs.Run.{AtLimit, IsAfter, run};
ghost use Rattle.asm_step.specs.code.Steps.{HasMainRule, shape_in, specification_in};

use crate::resolved_specification::ResolvedSpecification;
use crate::step::{Step, make_step};
use asm_eval::Choices;
use asm_meaning::laws::run_laws;
use asm_reader::Picks;
use asm_state::state::State;
use std::alloc::{AllocError, Global};

/// The state after `steps` steps of the run under a script, or none if the run ends before.
pub fn state_after<P: Picks>(
    alloc: Global,
    resolved: &ResolvedSpecification<'_>,
    script: &P,
    steps: u32,
) -> Result<Option<State>, AllocError>
    requires { HasMainRule resolved.now }
    ensures state { IfOk result (λ last. IfSome last (IsStateOf (shape_in resolved.now))) }
    ensures after { let m = resolved.now in
        IfOk result (λ last. IfSome last (λ A. IsAfter (specification_in m) m.turns (P.script script.now) steps (state_of (shape_in m) A))) }
    ensures ends { let m = resolved.now in
        IfOk result (λ last. IfNone last (¬ ((run (specification_in m) m.turns (P.script script.now) steps).end ≡ AtLimit))) }
{
    run_laws();
    let mut state = State::initial(alloc, resolved.checked.signature())?;
    for done in 0..steps {
        let choices = Choices {
            script,
            step: u64::from(done) + 1,
        };
        let made = make_step(alloc, resolved, &choices, &state)?;
        match made {
            Step::Next(next) => state = next,
            Step::Faulty(_) => return Ok(None),
            Step::Exhausted(_) => return Ok(None),
        }
    }
    Ok(Some(state))
}
