//! The exploration of a checked specification.
ghost use Rattle.std.specs.Prelude.{◌<◌, IfOk};
ghost use Rattle.asm_syntax.specs.code.Views.{spec_of};
ghost use Rattle.asm_meaning.specs.Declarations.{specification_of};
ghost use Rattle.asm_explore.specs.ExplorationResults.{IsExplorationResult};
ghost use Rattle.asm_explore.specs.code.ResolvedConditions.{term_holds, holds_in, IsSpecified};
ghost use Rattle.asm_explore.specs.code.MainRule.{IsMainOverLimit};
ghost use Rattle.asm_check.specs.Shapes.{shape_of};

use crate::condition::condition_code;
use crate::exploration_result::ExplorationResult;
use crate::explore_machine::explore_machine;
use crate::progress::{Progress, Watch};
use crate::resolved_question::ResolvedQuestion;
use asm_check::Checked;
use asm_resolve::main_rule::resolve_main;
use asm_state::state::State;
use asm_syntax::term::Term;
use std::alloc::{AllocError, Global};

/// What is looked for, and how far.
#[derive(Drop)]
pub struct Question {
    /// What is to hold in each state.
    pub always: Option<Term>,
    /// From which states runs are followed.
    pub within: Option<Term>,
    /// What is to hold in each quiet state, in which nothing changes any more, whatever is chosen.
    pub when_quiet: Option<Term>,
    pub turns: u32,
    /// The greatest number of steps of the runs that are looked at.
    pub steps: u32,
    /// How many states may be reached.
    pub states: u32,
    /// How many outcomes may be listed at once.
    pub outcomes: usize,
}

/// Looks through the runs of a resolved specification.
fn explore_specified<W: Watch<Progress>>(
    alloc: Global,
    specified: &ResolvedQuestion<'_>,
    steps: u32,
    states: u32,
    watch: &mut W,
) -> Result<ExplorationResult, AllocError>
    requires { IsSpecified specified.now }
    ensures { let s = spec_of specified.now.checked.now.spec in
        IfOk result (λ answer. IsExplorationResult (specification_of s) specified.now.turns (IsMainOverLimit specified.now.checked.now specified.now.turns specified.now.limit) steps states (holds_in (shape_of s) specified.now.always.now) (holds_in (shape_of s) specified.now.when_quiet.now) (holds_in (shape_of s) specified.now.within.now) answer) }
{
    let initial = State::initial(alloc, specified.checked.signature())?;
    explore_machine(alloc, specified, &initial, steps, states, watch)
}

/// Looks through the runs of a specification, in which `turns` turns exhaust an `iterate`.
fn explore_turns<W: Watch<Progress>>(
    alloc: Global,
    checked: &Checked,
    question: &Question,
    turns: u32,
    watch: &mut W,
) -> Result<ExplorationResult, AllocError>
    ensures { let q = question.now in
        IfOk result (λ answer. IsExplorationResult (specification_of (spec_of checked.now.spec)) turns (IsMainOverLimit checked.now turns q.outcomes) q.steps q.states (term_holds checked.now q.always) (term_holds checked.now q.when_quiet) (term_holds checked.now q.within) answer) }
{
    let code = resolve_main(alloc, checked)?;
    let always = condition_code(alloc, checked, &question.always)?;
    let within = condition_code(alloc, checked, &question.within)?;
    let when_quiet = condition_code(alloc, checked, &question.when_quiet)?;
    let specified = ResolvedQuestion {
        checked,
        code: &code,
        turns,
        limit: question.outcomes,
        always: &always,
        within: &within,
        when_quiet: &when_quiet,
    };
    let (steps, states) = (question.steps, question.states);
    let answered = explore_specified(alloc, &specified, steps, states, watch)?;
    Ok(answered)
}

/// Looks through all runs of a specification for a step that goes wrong, or leads to a state in
/// which the condition isn't true. Now and then the watch is told how far that is.
pub fn explore_all<W: Watch<Progress>>(
    alloc: Global,
    checked: &Checked,
    question: &Question,
    watch: &mut W,
) -> Result<ExplorationResult, AllocError>
    ensures { let q = question.now in
        IfOk result (λ answer. IsExplorationResult (specification_of (spec_of checked.now.spec)) q.turns (IsMainOverLimit checked.now q.turns q.outcomes) q.steps q.states (term_holds checked.now q.always) (term_holds checked.now q.when_quiet) (term_holds checked.now q.within) answer) }
{
    let answered = explore_turns(alloc, checked, question, question.turns, watch)?;
    Ok(answered)
}
