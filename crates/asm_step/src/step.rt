//! A step of a run.
ghost use Rattle.std.specs.Prelude.{◌≡◌, [], length, IfErr, IfOk, OnOk};
ghost use Rattle.asm_state.specs.Signature.{count_of};
ghost use Rattle.asm_eval.specs.code.FormedOutcomes.{IsSet, IsStoppedAt};
ghost use Rattle.asm_step.specs.code.Steps.{Comes, HasMainRule, shape_in, step_in};

use crate::resolved_specification::ResolvedSpecification;
use asm_eval::evaluation::Evaluation;
use asm_eval::form::form;
use asm_eval::frame::Frame;
use asm_eval::regions::{OnThisThread, Regions};
use asm_eval::{Choices, Forming, Path, Stopped, View};
use asm_reader::Picks;
use asm_resolve::laws::resolving_laws;
use asm_state::state::State;
use asm_updates::fault::Fault;
use asm_updates::summary::Summary;
use std::alloc::{AllocError, Global};

/// What comes of a step.
#[derive(Drop)]
pub enum Step {
    /// The state that it leads to.
    Next(State),
    /// Its set has this first fault, so the run ends.
    Faulty(Fault),
    /// It has no set, since the `iterate` at this path has made its last turn; so the run ends.
    Exhausted(Path),
}

/// Forms what the step from a state yields with these choices, instead of what was formed before,
/// and stands at the main rule's body again. Regions may be offered to `regions`.
pub fn form_step<P: Picks, G: Regions<P>>(
    alloc: Global,
    regions: &mut G,
    resolved: &ResolvedSpecification<'_>,
    choices: &Choices<'_, P>,
    state: &State,
    forming: &mut Forming,
) -> Result<(), Stopped>
    requires main { HasMainRule resolved.now }
    requires ready { G.is_ready regions.old }
    requires whole { length state.now ≡ count_of (shape_in resolved.now) }
    requires fits { forming.old.set.count ≡ count_of (shape_in resolved.now) }
    ensures ready { G.is_ready regions.new }
    ensures count { forming.new.set.count ≡ forming.old.set.count }
    ensures formed { OnOk result (IsSet (shape_in resolved.now) (step_in resolved.now (P.script choices.now.script.now) choices.now.step state.now) forming.new.set forming.new.instances) }
    ensures path { OnOk result (forming.new.path.items ≡ []) }
    ensures exhausted { IfErr result (IsStoppedAt (step_in resolved.now (P.script choices.now.script.now) choices.now.step state.now) forming.new.path.items) }
{
    resolving_laws();
    forming.clear();
    let signature = resolved.checked.signature();
    let nothing = Summary::new(alloc, signature.count());
    let view = View::new(signature, state, &nothing);
    let evaluation = Evaluation {
        view: &view,
        choices,
        turns: resolved.turns,
    };
    form(
        alloc,
        regions,
        &evaluation,
        &Frame::Empty,
        resolved.code,
        forming,
    )
}

/// What comes of the step from a state with these choices, all of it on this thread.
pub fn make_step<P: Picks>(
    alloc: Global,
    resolved: &ResolvedSpecification<'_>,
    choices: &Choices<'_, P>,
    state: &State,
) -> Result<Step, AllocError>
    requires main { HasMainRule resolved.now }
    requires whole { length state.now ≡ count_of (shape_in resolved.now) }
    ensures { IfOk result (Comes (shape_in resolved.now) (step_in resolved.now (P.script choices.now.script.now) choices.now.step state.now).result state.now) }
{
    let signature = resolved.checked.signature();
    let mut forming = Forming::new(alloc, signature);
    match form_step(
        alloc,
        &mut OnThisThread,
        resolved,
        choices,
        state,
        &mut forming,
    ) {
        Ok(()) => {}
        Err(Stopped::Exhausted) => return Ok(Step::Exhausted(Path::new(forming.path))),
        Err(Stopped::Memory) => return Err(AllocError),
    }
    if let Some(fault) = forming.set.first_fault(signature) {
        return Ok(Step::Faulty(fault));
    }
    let next = forming.set.fire(alloc, signature, state)?;
    Ok(Step::Next(next))
}
