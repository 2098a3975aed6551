//! A step whose choices are all drawn.
ghost use Rattle.std.specs.Prelude.{◌≡◌, false, length, IfNone, IfOk, IfSome, OnOk};
ghost use Rattle.asm_state.specs.Signature.{count_of, state_of};
ghost use Rattle.asm_syntax.specs.code.Views.{spec_of};
ghost use Rattle.asm_check.specs.Shapes.{shape_of};
ghost use Rattle.asm_explore.specs.code.ResolvedConditions.{IsSpecified};
ghost use Rattle.asm_random.specs.DrawnTexts.{AreDrawn, IsUndrawnAfter, most_rounds};
ghost use Rattle.asm_random.specs.code.DraftSteps.{AddsStep};
ghost use Rattle.asm_random.specs.code.DrawnSteps.{IsSilent, asked_under};
ghost use Rattle.asm_random.specs.code.ResolvedRuns.{shape_in, specification_in};

use crate::asked_in::asked_in;
use crate::draft::Draft;
use crate::drawn_step::{are_drawn, draw_step};
use crate::random_source::RandomSource;
use asm_eval::Choices;
use asm_explore::ResolvedQuestion;
use asm_explore::laws::making_laws;
use asm_meaning::laws::told_outcomes;
use asm_state::state::State;
use std::alloc::{AllocError, Global};

/// Adds a step to a draft, with a number that is drawn for each choice that the step makes under
/// these numbers, which is looked at once more. Returns whether it makes one; or nothing, if after
/// all rounds one of them isn't drawn.
pub(crate) fn settle_step(
    alloc: Global,
    specified: &ResolvedQuestion<'_>,
    source: RandomSource,
    state: &State,
    draft: &mut Draft,
) -> Result<Option<bool>, AllocError>
    requires sound { IsSpecified specified.now }
    requires whole { length state.now ≡ count_of (shape_of (spec_of specified.now.checked.now.spec)) }
    ensures adds { OnOk result (AddsStep draft.old draft.new) }
    ensures drawn { let step = length draft.new.steps.items in
        IfOk result (λ found. IfSome found (λ _. AreDrawn source.seed source.run step (asked_under specified.now draft.new state.now step))) }
    ensures undrawn { let m = specified.now in let step = length draft.new.steps.items in
        IfOk result (λ found. IfNone found (IsUndrawnAfter (specification_in m) m.turns source.seed source.run step (state_of (shape_in m) state.now) most_rounds)) }
    ensures silent { let m = specified.now in
        IfOk result (λ found. IfSome found (λ chosen. chosen ≡ false → IsSilent (specification_in m) m.turns (state_of (shape_in m) state.now))) }
{
    making_laws();
    told_outcomes();
    draw_step(alloc, specified, source, state, draft)?;
    let step = draft.steps.len() as u64;
    let choices = Choices {
        script: &*draft,
        step,
    };
    let asked = asked_in(alloc, specified, &choices, state)?;
    if !are_drawn(source, step, asked.as_slice()) {
        return Ok(None);
    }
    Ok(Some(!asked.is_empty()))
}
