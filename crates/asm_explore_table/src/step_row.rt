//! A step of a run, as a row of its table shows it.
ghost use Rattle.std.specs.Prelude.{◌≡◌, List, IfOk, IfSome, option_map};
ghost use Rattle.asm_state.specs.Signature.{Shape, state_of};
ghost use Rattle.asm_state.specs.code.Contents.{IsStateOf};
ghost use Rattle.asm_state.specs.declared.value.Value.{Value};
ghost use Rattle.asm_meaning.specs.Yields.{Result as Yielded};
ghost use Rattle.asm_step.specs.code.Steps.{Comes, HasMainRule, shape_in, specification_in};
ghost use Rattle.asm_explore_table.specs.Rows.{led, row_of};
ghost use Rattle.asm_explore_table.specs.code.StepsMade.{row_said, situation};

use asm_eval::Choices;
use asm_explore::{ChoicePoint, choices_of_step};
use asm_reader::Picks;
use asm_state::laws::test_laws;
use asm_state::state::State;
use asm_step::{ResolvedSpecification, Step, make_step};
use std::alloc::{AllocError, Global};

/// What a step asks, and the state that it leads to, unless the run ends in it.
#[derive(Drop)]
pub(crate) struct StepRow {
    pub(crate) asked: Vec<ChoicePoint>,
    pub(crate) next: Option<State>,
}

impl StepRow {
    /// The state that the step leads to, unless the run ends in it.
    pub(crate) fn into_next(self) -> Option<State>
        ensures { result ≡ self.next }
    {
        let StepRow { asked, next } = self;
        drop(asked);
        next
    }
}

/// The state that a step leads to, unless the run ends in it.
fn next_of(made: Step) -> Option<State>
    ensures { (shape : Shape) (yields : Yielded) (old : List Value) → IsStateOf shape old → Comes shape yields old made →
        IfSome result (IsStateOf shape) × (option_map (state_of shape) result ≡ led (state_of shape old) yields) }
{
    test_laws();
    match made {
        Step::Next(next) => Some(next),
        Step::Faulty(_) => None,
        Step::Exhausted(_) => None,
    }
}

/// The step with this number of the run under a script, from the state that it begins in.
pub(crate) fn step_row<P: Picks>(
    alloc: Global,
    resolved: &ResolvedSpecification<'_>,
    script: &P,
    step: u64,
    state: &State,
) -> Result<StepRow, AllocError>
    requires main { HasMainRule resolved.now }
    requires state { IsStateOf (shape_in resolved.now) state.now }
    ensures state { IfOk result (λ row. IfSome row.next (IsStateOf (shape_in resolved.now))) }
    ensures is { let m = resolved.now in
        IfOk result (λ row. row_said (shape_in m) state.now row ≡ row_of (specification_in m) m.turns (state_of (shape_in m) state.now) (situation (P.script script.now) step)) }
{
    let choices = Choices { script, step };
    let (checked, code, turns) = (resolved.checked, resolved.code, resolved.turns);
    let asked = choices_of_step(alloc, checked, code, turns, &choices, state)?;
    let made = make_step(alloc, resolved, &choices, state)?;
    let next = next_of(made);
    Ok(StepRow { asked, next })
}
