//! Looks ahead at the steps from some states, by workers.
//!
//! Workers keep the states that weren't reached before the batch, packed as nodes are, with their
//! hashes (`StepAhead`). No state becomes a node while they work. A worker that has kept many
//! states leaves the others out. What is returned ends before the first state that was left out,
//! and the next batch has at most twice as many states, or 16 (`Index::next_batch`), so the memory
//! of a batch is bounded.
ghost use denote.Param.Send.{IsSync};
ghost use Rattle.std.specs.Prelude.{◌≡◌, ◌<◌, IfOk, length, take, vec_len};
ghost use Rattle.asm_state.specs.code.Contents.{IsStateOf};
ghost use Rattle.asm_state.specs.Signature.{count_of};
ghost use Rattle.asm_syntax.specs.code.Views.{spec_of};
ghost use Rattle.asm_check.specs.Shapes.{shape_of};
ghost use Rattle.asm_explore.specs.code.ResolvedConditions.{IsSpecified};
ghost use Rattle.asm_explore.specs.code.OutcomeLists.{Each};
ghost use Rattle.asm_explore_workers.specs.code.Batches.{AreAheadOf, firsts};
ghost use Rattle.asm_pool.specs.code.Lanes.{AreLanes};

use crate::job::{StepsJob, Tally};
use asm_check::shared::checked_is_shared;
use asm_eval::shared::views_and_pieces_are_shared;
use asm_explore::{Index, Machine, Nodes, ResolvedQuestion, StepAhead};
use asm_pool::{NoGate, PoolError, work};
use asm_state::state::State;
use std::alloc::{AllocError, Global};
use std::thread::Threads;

/// How many states for each worker are worth a thread.
const MIN_STATES_PER_WORKER: usize = 64;

/// How many states the workers keep at once, or one more step's each.
const MAX_STATES_KEPT: usize = 65_536;

/// Threads may share a value of this type.
fn is_shared<T: Sync>()
    ensures { IsSync T.row }
{}

/// A tally for each worker, which has kept nothing.
fn tallies(alloc: Global, workers: usize) -> Result<Vec<Tally>, AllocError>
    ensures { IfOk result (λ all. vec_len all ≡ workers) }
{
    let tallies = vec![in alloc; Tally { states: 0 }; workers]?;
    Ok(tallies)
}

/// What the first tasks found, up to the first one that was left out.
fn first_outs(
    alloc: Global,
    outs: Vec<Option<Option<StepAhead>>>,
) -> Result<Vec<Option<StepAhead>>, AllocError>
    ensures { IfOk result (λ all. all.items ≡ firsts outs.items) }
{
    let mut all = Vec::with_capacity(alloc, outs.len())?;
    for out in outs {
        let Some(ahead) = out else {
            return Ok(all);
        };
        all.push(ahead)?;
    }
    Ok(all)
}

/// What the step from each of these states leads to, by `workers` workers, or from the first of
/// them if that is a lot.
fn look_shared<'a, 's, R: Threads + Sync>(
    rt: &R,
    alloc: Global,
    specified: &ResolvedQuestion<'a>,
    workers: usize,
    states: &'s [State],
    nodes: &'s Nodes,
    index: &'s Index,
) -> Result<Vec<Option<StepAhead>>, AllocError>
    requires workers { AreLanes workers }
    requires sound { IsSpecified specified.now }
    requires states { Each (IsStateOf (shape_of (spec_of specified.now.checked.now.spec))) states.now }
    requires nodes { Each (λ n. length n.state ≡ count_of (shape_of (spec_of specified.now.checked.now.spec))) nodes.now }
    ensures some { 0 < length states.now → IfOk result (λ all. 0 < length all.items) }
    ensures ahead { IfOk result (λ all. AreAheadOf specified.now.checked.now specified.now.turns nodes.now (take (length all.items) states.now) all.items) }
{
    checked_is_shared();
    views_and_pieces_are_shared();
    is_shared::<State>();
    is_shared::<Nodes>();
    is_shared::<Index>();
    let job = StepsJob {
        alloc,
        checked: specified.checked,
        code: specified.code,
        turns: specified.turns,
        limit: specified.limit,
        states,
        nodes,
        index,
        room: MAX_STATES_KEPT / workers,
    };
    let tallies = tallies(alloc, workers)?;
    match work(rt, alloc, workers, states.len(), &job, tallies, &NoGate) {
        Ok(worked) => first_outs(alloc, worked.outs),
        Err(PoolError::Memory) => Err(AllocError),
    }
}

/// What the step from each of the first of these states leads to, by at most `workers` workers. If
/// there are so few states that no thread is worth it, none is looked at ahead.
pub(crate) fn look_by<'a, 's, R: Threads + Sync>(
    rt: &R,
    alloc: Global,
    specified: &ResolvedQuestion<'a>,
    workers: usize,
    states: &'s [State],
    nodes: &'s Nodes,
    index: &'s Index,
) -> Result<Vec<Option<StepAhead>>, AllocError>
    requires workers { AreLanes workers }
    requires sound { IsSpecified specified.now }
    requires states { Each (IsStateOf (shape_of (spec_of specified.now.checked.now.spec))) states.now }
    requires nodes { Each (λ n. length n.state ≡ count_of (shape_of (spec_of specified.now.checked.now.spec))) nodes.now }
    ensures some { 0 < length states.now → IfOk result (λ all. 0 < length all.items) }
    ensures ahead { IfOk result (λ all. AreAheadOf specified.now.checked.now specified.now.turns nodes.now (take (length all.items) states.now) all.items) }
{
    let workers = workers.min(states.len() / MIN_STATES_PER_WORKER);
    let all = if workers > 1 {
        look_shared(rt, alloc, specified, workers, states, nodes, index)?
    } else {
        specified.ahead(alloc, states, nodes, index)?
    };
    Ok(all)
}
