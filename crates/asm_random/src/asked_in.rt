//! The choices that a step makes.
ghost use Rattle.std.specs.Prelude.{◌≡◌, length, IfOk};
ghost use Rattle.asm_state.specs.Signature.{count_of, state_of};
ghost use Rattle.asm_syntax.specs.code.Views.{spec_of};
ghost use Rattle.asm_check.specs.Shapes.{shape_of};
ghost use Rattle.asm_explore.specs.RunChoices.{asked_from};
ghost use Rattle.asm_explore.specs.code.AskedPieces.{all_said};
ghost use Rattle.asm_explore.specs.code.ResolvedConditions.{IsSpecified};
ghost use Rattle.asm_explore.specs.code.StepLeads.{situation_of};
ghost use Rattle.asm_random.specs.code.ResolvedRuns.{shape_in, specification_in};

use asm_eval::Choices;
use asm_explore::{ChoicePoint, ResolvedQuestion, choices_of_step};
use asm_reader::Picks;
use asm_state::state::State;
use std::alloc::{AllocError, Global};

/// The choices that the step from a state makes, in their order.
pub(crate) fn asked_in<P: Picks>(
    alloc: Global,
    specified: &ResolvedQuestion<'_>,
    choices: &Choices<'_, P>,
    state: &State,
) -> Result<Vec<ChoicePoint>, AllocError>
    requires sound { IsSpecified specified.now }
    requires whole { length state.now ≡ count_of (shape_of (spec_of specified.now.checked.now.spec)) }
    ensures { let m = specified.now in
        IfOk result (λ asked. all_said asked.items ≡ asked_from (specification_in m) m.turns (state_of (shape_in m) state.now) (situation_of P.script choices.now)) }
{
    choices_of_step(
        alloc,
        specified.checked,
        specified.code,
        specified.turns,
        choices,
        state,
    )
}
