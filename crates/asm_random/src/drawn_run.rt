//! The run that is drawn from a seed.
ghost use Rattle.std.specs.Prelude.{IfNone, IfOk, IfSome};
ghost use Rattle.asm_state.specs.code.Contents.{IsStateOf};
ghost use Rattle.asm_reader.specs.ExactLines.{exactly};
ghost use Rattle.asm_explore.specs.code.ResolvedConditions.{IsSpecified};
ghost use Rattle.asm_random.specs.code.Drafts.{draft_lines};
ghost use Rattle.asm_random.specs.DrawnTexts.{IsDrawnRun, IsUnsettled};
ghost use Rattle.asm_random.specs.code.DrawnSteps.{GoesOn};
ghost use Rattle.asm_random.specs.code.ResolvedRuns.{right_in, shape_in, specification_in};

use crate::draft::Draft;
use crate::random_source::RandomSource;
use crate::settled_step::settle_step;
use asm_eval::Choices;
use asm_explore::{Machine, ResolvedQuestion, is_same_state};
use asm_meaning::laws::run_laws;
use asm_reader::Picks;
use asm_state::state::State;
use asm_step::{ResolvedSpecification, Step, make_step};
use std::alloc::{AllocError, Global};

/// The state that the step leads to, unless it has a fault.
fn step_on<P: Picks>(
    alloc: Global,
    specified: &ResolvedQuestion<'_>,
    choices: &Choices<'_, P>,
    state: &State,
) -> Result<Option<State>, AllocError>
    requires sound { IsSpecified specified.now }
    requires state { IsStateOf (shape_in specified.now) state.now }
    ensures { let m = specified.now in
        IfOk result (GoesOn (specification_in m) m.turns (P.script choices.now.script.now) choices.now.step (shape_in m) state.now) }
{
    let resolved = ResolvedSpecification {
        checked: specified.checked,
        code: specified.code,
        turns: specified.turns,
    };
    match make_step(alloc, &resolved, choices, state)? {
        Step::Next(next) => Ok(Some(next)),
        Step::Faulty(_) => Ok(None),
        Step::Exhausted(_) => Ok(None),
    }
}

/// A run that is drawn.
#[derive(Drop)]
pub(crate) struct FollowedDraft {
    /// It is the run under this draft.
    pub(crate) draft: Draft,
    /// This many steps of it are drawn.
    pub(crate) steps: u32,
}

/// The run of at most `steps` steps that is drawn from a seed, as run 0. It ends before a state
/// that isn't right, with a step that has a fault, and when a step makes no choice and changes
/// nothing. There is none if the numbers of a step aren't found in all rounds.
pub(crate) fn drawn_run(
    alloc: Global,
    specified: &ResolvedQuestion<'_>,
    seed: u64,
    steps: u32,
) -> Result<Option<FollowedDraft>, AllocError>
    requires { IsSpecified specified.now }
    ensures drawn { let m = specified.now in
        IfOk result (λ found. IfSome found (λ run. IsDrawnRun (specification_in m) m.turns (right_in m) seed steps (exactly (draft_lines run.draft)) run.steps)) }
    ensures unsettled { let m = specified.now in
        IfOk result (λ found. IfNone found (IsUnsettled (specification_in m) m.turns (right_in m) seed steps)) }
{
    run_laws();
    let source = RandomSource { seed, run: 0 };
    let mut draft = Draft::new(alloc);
    let mut state = State::initial(alloc, specified.checked.signature())?;
    for done in 0..steps {
        if !specified.is_right(alloc, &state) {
            return Ok(Some(FollowedDraft { draft, steps: done }));
        }
        let Some(chosen) = settle_step(alloc, specified, source, &state, &mut draft)? else {
            return Ok(None);
        };
        let (steps, choices) = (
            done + 1,
            Choices {
                script: &draft,
                step: u64::from(done) + 1,
            },
        );
        let Some(next) = step_on(alloc, specified, &choices, &state)? else {
            return Ok(Some(FollowedDraft { draft, steps }));
        };
        if !chosen && is_same_state(&state, &next, specified.checked.signature().count()) {
            return Ok(Some(FollowedDraft { draft, steps }));
        }
        state = next;
    }
    Ok(Some(FollowedDraft { draft, steps }))
}
