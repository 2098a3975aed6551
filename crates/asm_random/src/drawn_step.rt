//! The numbers of a step, drawn.
ghost use Rattle.std.specs.Prelude.{◌≡◌, ◌≢◌, false, length, map, IfOk, IsTrue, OnOk};
ghost use Rattle.asm_state.specs.Signature.{count_of, state_of};
ghost use Rattle.asm_syntax.specs.code.Views.{spec_of};
ghost use Rattle.asm_check.specs.Shapes.{shape_of};
ghost use Rattle.asm_explore.specs.ChoicePoints.{choices_of};
ghost use Rattle.asm_explore.specs.TakenChoices.{HaveOwnPaths};
ghost use Rattle.asm_explore.specs.code.AskedPieces.{all_said};
ghost use Rattle.asm_explore.specs.code.ResolvedConditions.{IsSpecified};
ghost use Rattle.asm_random.specs.DrawnNumbers.{drawn_number};
ghost use Rattle.asm_random.specs.DrawnTexts.{AreDrawn, IsUndrawnAfter, drawn_line, most_rounds};
ghost use Rattle.asm_random.specs.code.DraftSteps.{AddsStep, PutsNumber, ReplacesLast, TakeAs};
ghost use Rattle.asm_random.specs.code.DrawnSteps.{asked_under};
ghost use Rattle.asm_random.specs.code.WrongSteps.{IsSameForAll};
ghost use Rattle.asm_random.specs.code.ResolvedRuns.{shape_in, specification_in};

use crate::asked_in::asked_in;
use crate::draft::{Draft, Numbers};
use crate::random_source::RandomSource;
use asm_eval::Choices;
use asm_explore::laws::making_laws;
use asm_explore::{ChoicePoint, ResolvedQuestion};
use asm_meaning::laws::told_outcomes;
use asm_state::state::State;
use std::alloc::{AllocError, Global};
use std::collections::BTreeMap;

/// The number that is drawn for a choice.
fn drawn(source: RandomSource, step: u64, asked: &ChoicePoint) -> u64
    ensures { result ≡ drawn_number source.seed source.run step asked.now.choice.path (length asked.now.candidates.items) }
{
    let many = asked.candidates.len() as u64;
    source.candidate(step, asked.choice.path.as_slice(), many.max(1))
}

/// Puts a number at a path, except 0, which is taken without one.
fn put_number(
    alloc: Global,
    numbers: &mut Numbers,
    path: &[u64],
    number: u64,
) -> Result<(), AllocError>
    ensures zero { number ≡ 0 → OnOk result (numbers.new.entries ≡ numbers.old.entries) }
    ensures put { number ≢ 0 → OnOk result (PutsNumber numbers.old numbers.new path.now number) }
{
    if number == 0 {
        return Ok(());
    }
    let path = path.to_vec(alloc)?;
    numbers.insert(path, number)?;
    Ok(())
}

/// The numbers that are drawn for some choices.
fn drawn_numbers(
    alloc: Global,
    source: RandomSource,
    step: u64,
    asked: &[ChoicePoint],
) -> Result<Numbers, AllocError>
    requires { HaveOwnPaths (choices_of (all_said asked.now)) }
    ensures { IfOk result (λ numbers. TakeAs step numbers (map (drawn_line source.seed source.run step) (all_said asked.now))) }
{
    let mut numbers = BTreeMap::new(alloc);
    for k in 0..asked.len() {
        let point = &asked[k];
        let number = drawn(source, step, point);
        put_number(alloc, &mut numbers, point.choice.path.as_slice(), number)?;
    }
    Ok(numbers)
}

/// Whether each of some choices takes the number that is drawn for it.
pub(crate) fn are_drawn(source: RandomSource, step: u64, asked: &[ChoicePoint]) -> bool
    ensures drawn { IsTrue result → AreDrawn source.seed source.run step (all_said asked.now) }
    ensures undrawn { result ≡ false → ¬ (AreDrawn source.seed source.run step (all_said asked.now)) }
{
    for k in 0..asked.len() {
        if asked[k].choice.number != drawn(source, step, &asked[k]) {
            return false;
        }
    }
    true
}

/// Gives the last step of a draft these numbers instead of its own.
fn replace_last(draft: &mut Draft, numbers: Numbers) -> Result<(), AllocError>
    ensures { OnOk result (ReplacesLast draft.old draft.new numbers) }
{
    draft.steps.pop();
    draft.steps.push(numbers)?;
    Ok(())
}

/// Adds a step to a draft, with a number that is drawn for each choice that the step makes under
/// these numbers. Returns whether it makes one.
///
/// Which choices are made depends on the numbers of those before them. So at first there is none,
/// and all are drawn again until they are those that are taken: the number of the first choice is
/// found at once, and that of each other one when those before it are.
pub(crate) fn draw_step(
    alloc: Global,
    specified: &ResolvedQuestion<'_>,
    source: RandomSource,
    state: &State,
    draft: &mut Draft,
) -> Result<bool, AllocError>
    requires sound { IsSpecified specified.now }
    requires whole { length state.now ≡ count_of (shape_of (spec_of specified.now.checked.now.spec)) }
    ensures adds { OnOk result (AddsStep draft.old draft.new) }
    ensures undrawn { let m = specified.now in let step = length draft.new.steps.items in
        OnOk result (¬ (AreDrawn source.seed source.run step (asked_under m draft.new state.now step)) → IsUndrawnAfter (specification_in m) m.turns source.seed source.run step (state_of (shape_in m) state.now) most_rounds) }
    ensures alike { let m = specified.now in
        IfOk result (λ chosen. chosen ≡ false → IsSameForAll (specification_in m) m.turns (state_of (shape_in m) state.now)) }
{
    making_laws();
    told_outcomes();
    draft.steps.push(BTreeMap::new(alloc))?;
    let step = draft.steps.len() as u64;
    for _round in 0..u32::MAX {
        let choices = Choices {
            script: &*draft,
            step,
        };
        let asked = asked_in(alloc, specified, &choices, state)?;
        let settled = are_drawn(source, step, asked.as_slice());
        let numbers = drawn_numbers(alloc, source, step, asked.as_slice())?;
        replace_last(draft, numbers)?;
        if settled {
            return Ok(!asked.is_empty());
        }
    }
    Ok(true)
}
