//! The exploration of a checked specification by several workers.
ghost use Rattle.std.specs.Prelude.{◌≡◌, ◌<◌, IfOk, length, take};
ghost use Rattle.asm_state.specs.code.Contents.{IsStateOf};
ghost use Rattle.asm_state.specs.Signature.{count_of};
ghost use Rattle.asm_syntax.specs.code.Views.{spec_of};
ghost use Rattle.asm_check.specs.Shapes.{shape_of};
ghost use Rattle.asm_meaning.specs.Declarations.{specification_of};
ghost use Rattle.asm_explore.specs.ExplorationResults.{IsExplorationResult};
ghost use Rattle.asm_explore.specs.code.ResolvedConditions.{term_holds, holds_in, IsSpecified};
ghost use Rattle.asm_explore.specs.code.OutcomeLists.{Each};
ghost use Rattle.asm_explore.specs.code.MainRule.{IsMainOverLimit};
ghost use Rattle.asm_explore_workers.specs.code.Batches.{AreAheadOf};
ghost use Rattle.asm_pool.specs.code.Lanes.{AreLanes};

use crate::look_by::look_by;
use crate::looks_ahead_by::LooksAheadBy;
use asm_check::Checked;
use asm_explore::condition::condition_code;
use asm_explore::explore_all::explore_all;
use asm_explore::explore_machine::explore_machine;
use asm_explore::{
    ExplorationResult, Index, Nodes, Progress, Question, ResolvedQuestion, StepAhead, Watch,
};
use asm_resolve::main_rule::resolve_main;
use asm_state::state::State;
use std::alloc::{AllocError, Global};
use std::thread::Threads;

/// How many states are stepped from at once for each worker.
const STATES_PER_WORKER: usize = 256;

/// Looks through the runs of a resolved specification, by `workers` workers.
fn explore_specified_by<R: Threads + Sync, W: Watch<Progress>>(
    rt: &R,
    alloc: Global,
    specified: &ResolvedQuestion<'_>,
    steps: u32,
    states: u32,
    workers: usize,
    watch: &mut W,
) -> Result<ExplorationResult, AllocError>
    requires sound { IsSpecified specified.now }
    requires workers { AreLanes workers }
    ensures { let s = spec_of specified.now.checked.now.spec in
        IfOk result (λ answer. IsExplorationResult (specification_of s) specified.now.turns (IsMainOverLimit specified.now.checked.now specified.now.turns specified.now.limit) steps states (holds_in (shape_of s) specified.now.always.now) (holds_in (shape_of s) specified.now.when_quiet.now) (holds_in (shape_of s) specified.now.within.now) answer) }
{
    let initial = State::initial(alloc, specified.checked.signature())?;
    let list = |alloc: Global, states: &[State], nodes: &Nodes, index: &Index| -> Result<
        Vec<Option<StepAhead>>,
        AllocError,
    >
        requires workers { AreLanes workers }
        requires sound { IsSpecified specified.now }
        requires states { Each (IsStateOf (shape_of (spec_of specified.now.checked.now.spec))) states.now }
        requires nodes { Each (λ n. length n.state ≡ count_of (shape_of (spec_of specified.now.checked.now.spec))) nodes.now }
        ensures some { 0 < length states.now → IfOk result (λ all. 0 < length all.items) }
        ensures ahead { IfOk result (λ all. AreAheadOf specified.entry.now.checked.now specified.entry.now.turns nodes.now (take (length all.items) states.now) all.items) }
    { look_by(rt, alloc, specified, workers, states, nodes, index) };
    let machine = LooksAheadBy {
        machine: specified,
        list: &list,
        batch: workers * STATES_PER_WORKER,
    };
    explore_machine(alloc, &machine, &initial, steps, states, watch)
}

/// Looks through the runs of a specification, in which `turns` turns exhaust an `iterate`.
fn explore_turns_by<R: Threads + Sync, W: Watch<Progress>>(
    rt: &R,
    alloc: Global,
    checked: &Checked,
    question: &Question,
    turns: u32,
    workers: usize,
    watch: &mut W,
) -> Result<ExplorationResult, AllocError>
    requires workers { AreLanes workers }
    ensures { let q = question.now in
        IfOk result (λ answer. IsExplorationResult (specification_of (spec_of checked.now.spec)) turns (IsMainOverLimit checked.now turns q.outcomes) q.steps q.states (term_holds checked.now q.always) (term_holds checked.now q.when_quiet) (term_holds checked.now q.within) answer) }
{
    let code = resolve_main(alloc, checked)?;
    let always = condition_code(alloc, checked, &question.always)?;
    let within = condition_code(alloc, checked, &question.within)?;
    let when_quiet = condition_code(alloc, checked, &question.when_quiet)?;
    let specified = ResolvedQuestion {
        checked,
        code: &code,
        turns,
        limit: question.outcomes,
        always: &always,
        within: &within,
        when_quiet: &when_quiet,
    };
    let (steps, states) = (question.steps, question.states);
    let answered = explore_specified_by(rt, alloc, &specified, steps, states, workers, watch)?;
    Ok(answered)
}

/// Looks through all runs of a specification, as `explore_all` does, by `workers` workers. Each
/// thread that was started has ended when the call returns.
pub fn explore_all_by<R: Threads + Sync, W: Watch<Progress>>(
    rt: &R,
    alloc: Global,
    checked: &Checked,
    question: &Question,
    workers: usize,
    watch: &mut W,
) -> Result<ExplorationResult, AllocError>
    requires workers { AreLanes workers }
    ensures { let q = question.now in
        IfOk result (λ answer. IsExplorationResult (specification_of (spec_of checked.now.spec)) q.turns (IsMainOverLimit checked.now q.turns q.outcomes) q.steps q.states (term_holds checked.now q.always) (term_holds checked.now q.when_quiet) (term_holds checked.now q.within) answer) }
{
    let answered = if workers == 1 {
        explore_all(alloc, checked, question, watch)?
    } else {
        explore_turns_by(rt, alloc, checked, question, question.turns, workers, watch)?
    };
    Ok(answered)
}
