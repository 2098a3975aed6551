//! Whether a step of a resolved specification changes nothing.
ghost use Rattle.std.specs.Prelude.{◌≡◌, ◌↔◌, IsTrue, IfOk, IfErr};
ghost use Rattle.asm_state.specs.code.Contents.{IsStateOf};
ghost use Rattle.asm_state.specs.Signature.{count_of, state_of};
ghost use Rattle.asm_state.specs.Updates.{UpdateSet};
ghost use Rattle.asm_syntax.specs.code.Views.{spec_of};
ghost use Rattle.asm_check.specs.Shapes.{shape_of};
ghost use Rattle.asm_updates.specs.code.Stands.{Stands};
ghost use Rattle.asm_meaning.specs.Declarations.{specification_of};
ghost use Rattle.asm_meaning.specs.Yields.{Gives};
ghost use Rattle.asm_code.specs.code.RuleViews.{rule_of};
ghost use Rattle.asm_explore.specs.code.ChoicesMade.{made_in};
ghost use Rattle.asm_explore.specs.code.ResolvedConditions.{IsSpecified};
ghost use Rattle.asm_explore.specs.code.SearchEnds.{HaltsSo};
ghost use Rattle.asm_explore.specs.code.StepOutcomes.{IsOverLimitOf};
ghost use Rattle.asm_explore.specs.Search.{LeadsOn, IsQuiet};

use crate::resolved_question::ResolvedQuestion;
use crate::search::is_same_state;
use crate::search_error::{SearchError, halted};
use crate::specification::step_outcomes;
use crate::states::quiet::all_stay;
use asm_eval::evaluation::Evaluation;
use asm_eval::frame::Frame;
use asm_eval::part_set::PartSet;
use asm_eval::piece::{Piece, whole_piece};
use asm_eval::{Choices, Outcome, Part, Path, View};
use asm_reader::Script;
use asm_resolve::laws::resolving_laws;
use asm_state::signature::Signature;
use asm_state::state::State;
use asm_updates::summary::Summary;
use std::alloc::{AllocError, Global};

/// Whether a set is faulty, or leads to another state.
fn changes(
    alloc: Global,
    signature: &Signature,
    set: &Summary,
    state: &State,
) -> Result<bool, AllocError>
    requires counted { set.now.count ≡ count_of signature.now }
    requires state { IsStateOf signature.now state.now }
    ensures { IfOk result (λ so. IsTrue so → (U : UpdateSet) → Stands signature.now set.now U →
        ¬ (LeadsOn (Gives U) (state_of signature.now state.now) (λ B. B ≡ state_of signature.now state.now))) }
{
    let part = PartSet::of(signature, set);
    if part.ends_parts() {
        return Ok(true);
    }
    let next = set.fire(alloc, signature, state)?;
    Ok(!is_same_state(&next, state, signature.count()))
}

/// Whether the step from a state under the script without lines changes it, or ends the run.
fn first_changes(
    alloc: Global,
    specified: &ResolvedQuestion<'_>,
    state: &State,
) -> Result<bool, AllocError>
    requires sound { IsSpecified specified.now }
    requires state { IsStateOf (shape_of (spec_of specified.now.checked.now.spec)) state.now }
    ensures { let s = spec_of specified.now.checked.now.spec in
        IfOk result (λ so. IsTrue so → ¬ (IsQuiet (specification_of s) specified.now.turns (state_of (shape_of s) state.now))) }
{
    resolving_laws();
    let signature = specified.checked.signature();
    let nothing = Summary::new(alloc, signature.count());
    let view = View::new(signature, state, &nothing);
    let script = Script::new(alloc);
    let choices = Choices {
        script: &script,
        step: 1,
    };
    let evaluation = Evaluation {
        view: &view,
        choices: &choices,
        turns: specified.turns,
    };
    let piece = Piece {
        rule: specified.code,
        frame: Frame::Empty,
        path: Path::new(Vec::new(alloc)),
        part: Part::Whole,
    };
    match whole_piece(alloc, &evaluation, &piece)? {
        Outcome::Exhausted(_) => Ok(true),
        Outcome::Set { set, .. } => changes(alloc, signature, &set, state),
    }
}

/// Whether the step from a state changes nothing, whatever is chosen. Its outcomes are listed only
/// if the step under the script without lines changes nothing.
pub(crate) fn is_quiet_in(
    alloc: Global,
    specified: &ResolvedQuestion<'_>,
    state: &State,
) -> Result<bool, SearchError>
    requires sound { IsSpecified specified.now }
    requires state { IsStateOf (shape_of (spec_of specified.now.checked.now.spec)) state.now }
    ensures quiet { let s = spec_of specified.now.checked.now.spec in
        IfOk result (λ so. IsTrue so ↔ IsQuiet (specification_of s) specified.now.turns (state_of (shape_of s) state.now)) }
    ensures crowded { let s = spec_of specified.now.checked.now.spec in
        let makes = made_in (shape_of s) specified.now.turns (rule_of specified.now.code.now) in
        IfErr result (HaltsSo ⊥ (IsOverLimitOf makes specified.now.limit (state_of (shape_of s) state.now))) }
{
    if first_changes(alloc, specified, state)? {
        return Ok(false);
    }
    let signature = specified.checked.signature();
    match step_outcomes(alloc, specified, state) {
        Ok(outcomes) => Ok(all_stay(alloc, signature, state, outcomes.as_slice())?),
        Err(refusal) => Err(halted(alloc, &refusal)),
    }
}
