//! The choices that steps make.
ghost use Rattle.std.specs.Prelude.{◌≡◌, length, IfOk};
ghost use Rattle.asm_state.specs.Signature.{count_of, state_of};
ghost use Rattle.asm_check.specs.Shapes.{shape_of};
ghost use Rattle.asm_meaning.specs.Declarations.{specification_of};
ghost use Rattle.asm_syntax.specs.code.Views.{spec_of};
ghost use Rattle.asm_explore.specs.RunChoices.{chosen_from, choices_made};
ghost use Rattle.asm_explore.specs.code.ResolvedConditions.{IsSpecified};
ghost use Rattle.asm_explore.specs.code.StepLeads.{situation_of};
ghost use Rattle.asm_graph.specs.Graphs.{along};

use crate::edge_script::EdgeScript;
use asm_eval::{Choices, Path};
use asm_explore::{Choice, ChoicePoint, ResolvedQuestion, choices_of_step};
use asm_reader::Picks;
use asm_state::state::State;
use std::alloc::{AllocError, Global};

/// The same choice again.
fn copied(alloc: Global, choice: &Choice) -> Result<Choice, AllocError>
    ensures { IfOk result (λ c. c ≡ choice.now) }
{
    let numbers = choice.path.as_slice().to_vec(alloc)?;
    Ok(Choice {
        path: Path::new(numbers),
        number: choice.number,
    })
}

/// The choices without their candidates.
fn choices_in(alloc: Global, asked: &[ChoicePoint]) -> Result<Vec<Choice>, AllocError>
    ensures { IfOk result (λ choices. choices.items ≡ choices_made asked.now) }
{
    let mut choices = Vec::new(alloc);
    for k in 0..asked.len() {
        choices.push(copied(alloc, &asked[k].choice)?)?;
    }
    Ok(choices)
}

/// The choices that the step from a state makes.
pub(crate) fn made_choices<P: Picks>(
    alloc: Global,
    specified: &ResolvedQuestion<'_>,
    choices: &Choices<'_, P>,
    state: &State,
) -> Result<Vec<Choice>, AllocError>
    requires specified { IsSpecified specified.now }
    requires whole { length state.now ≡ count_of (shape_of (spec_of specified.now.checked.now.spec)) }
    ensures { let s = spec_of specified.now.checked.now.spec in
        IfOk result (λ made. made.items ≡ chosen_from (specification_of s) specified.now.turns (state_of (shape_of s) state.now) (situation_of P.script choices.now)) }
{
    let (checked, code, turns) = (specified.checked, specified.code, specified.turns);
    let asked = choices_of_step(alloc, checked, code, turns, choices, state)?;
    let made = choices_in(alloc, asked.as_slice())?;
    Ok(made)
}

/// The choices that the step from a state makes, if it takes these where they are asked, and else
/// first candidates.
pub(crate) fn choices_along(
    alloc: Global,
    specified: &ResolvedQuestion<'_>,
    choices: &[Choice],
    state: &State,
) -> Result<Vec<Choice>, AllocError>
    requires specified { IsSpecified specified.now }
    requires whole { length state.now ≡ count_of (shape_of (spec_of specified.now.checked.now.spec)) }
    ensures { let s = spec_of specified.now.checked.now.spec in
        IfOk result (λ made. made.items ≡ chosen_from (specification_of s) specified.now.turns (state_of (shape_of s) state.now) (along choices.now)) }
{
    let script = EdgeScript { choices };
    let taken = Choices {
        script: &script,
        step: 1,
    };
    let made = made_choices(alloc, specified, &taken, state)?;
    Ok(made)
}
