//! One step of a run.
ghost use Rattle.std.specs.Prelude.{IfOk, IfSome, IfNone, OnOk};
ghost use Rattle.asm_syntax.specs.code.Views.{spec_of};
ghost use Rattle.asm_step.specs.code.Steps.{HasMainRule};
ghost use Rattle.asm_run.specs.code.Step.{AreSized, IsFired, IsStopped};
ghost use Rattle.asm_run.specs.code.WrittenEntries.{AreTextsOf};

use crate::end::End;
use crate::location_texts::LocationTexts;
use crate::pooled::Pooled;
use crate::step_end::end_at_fault;
use crate::trace::push_step;
use asm_eval::{Choices, Forming, Path, Stopped};
use asm_pool::Gate;
use asm_reader::Picks;
use asm_state::state::State;
use asm_step::ResolvedSpecification;
use std::alloc::{AllocError, Global};
use std::mem;
use std::thread::Threads;

/// Forms the set of a step. Fires it and replaces what was there with the text of the step, or
/// returns the end of the run.
pub fn make_step<R: Threads + Sync, G: Gate + Sync, P: Picks + Sync>(
    alloc: Global,
    pooled: &Pooled<'_, R, G>,
    resolved: &ResolvedSpecification<'_>,
    choices: &Choices<'_, P>,
    state: &mut State,
    forming: &mut Forming,
    text: &mut Vec<u8>,
    texts: &mut LocationTexts,
) -> Result<Option<End>, AllocError>
    requires sized { AreSized (spec_of resolved.now.checked.now.spec) state.old forming.old.set.count }
    requires main { HasMainRule resolved.now }
    requires known { AreTextsOf (spec_of resolved.now.checked.now.spec) texts.old }
    ensures known { OnOk result (AreTextsOf (spec_of resolved.now.checked.now.spec) texts.new) }
    ensures sized { OnOk result (AreSized (spec_of resolved.now.checked.now.spec) state.new forming.new.set.count) }
    ensures fired { IfOk result (λ end. IfNone end (IsFired (spec_of resolved.now.checked.now.spec) resolved.now.turns (P.script choices.now.script.now) choices.now.step state.old state.new text.new.items)) }
    ensures stopped { IfOk result (λ end. IfSome end (IsStopped (spec_of resolved.now.checked.now.spec) resolved.now.turns (P.script choices.now.script.now) choices.now.step state.old state.new)) }
{
    match pooled.form_step(alloc, resolved, choices, state, forming) {
        Ok(()) => {}
        Err(Stopped::Exhausted) => {
            let path = mem::replace(&mut forming.path, Vec::new(alloc));
            return Ok(Some(End::Exhausted {
                step: choices.step,
                path: Path::new(path),
            }));
        }
        Err(Stopped::Memory) => return Err(AllocError),
    }
    let signature = resolved.checked.signature();
    if let Some(fault) = forming.set.first_fault(signature) {
        let end = end_at_fault(alloc, signature, choices.step, fault)?;
        return Ok(Some(end));
    }
    forming.set.sort()?;
    text.clear();
    push_step(
        alloc,
        text,
        resolved.checked,
        texts,
        choices.step,
        forming.instances,
        &forming.set,
    )?;
    forming.set.fire_into(state);
    Ok(None)
}
