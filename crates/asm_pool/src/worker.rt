//! What one worker has, and one run of a task.
ghost use Rattle.std.specs.Prelude.{◌≡◌, [], IfOk, map};
ghost use Rattle.asm_pool.specs.code.WorkDone.{done_by};

use crate::gate::Gate;
use crate::job::Job;
use std::alloc::{AllocError, Global};

/// A task that was run, and the out of that run.
#[derive(Drop)]
pub(crate) struct TaskRun<Out> {
    pub task: usize,
    pub out: Out,
}

/// A worker's hand, and what it has done, in its order.
#[derive(Drop)]
pub(crate) struct Worker<Hand, Out> {
    pub hand: Hand,
    pub done: Vec<TaskRun<Out>>,
}

/// Runs a task between the two calls of the gate.
pub(crate) fn run_one<J: Job, G: Gate>(
    job: &J,
    gate: &G,
    task: usize,
    hand: &mut J::Hand,
) -> TaskRun<J::Out>
    requires task { J.has_task job.now task }
    requires hand { J.takes_hand job.now hand.old }
    ensures task { result.task ≡ task }
    ensures hand { J.takes_hand job.now hand.new }
    ensures run { J.runs job.now task hand.old result.out hand.new }
{
    gate.taken(task);
    let out = job.run(task, hand);
    gate.done(task);
    TaskRun { task, out }
}

/// A worker for each hand, which has done nothing.
pub(crate) fn idle_workers<H: Drop, O: Drop>(
    alloc: Global,
    hands: Vec<H>,
) -> Result<Vec<Worker<H, O>>, AllocError>
    ensures idle { IfOk result (λ ws. done_by ws.items ≡ []) }
    ensures hands { IfOk result (λ ws. map (λ w. w.hand) ws.items ≡ hands.items) }
{
    let mut workers = Vec::with_capacity(alloc, hands.len())?;
    for hand in hands {
        let done = Vec::new(alloc);
        workers.push(Worker { hand, done })?;
    }
    Ok(workers)
}
