//! Puts together what the workers have done.
ghost use Rattle.std.specs.Prelude.{◌≡◌, ◌^◌, ◌<◌, ◌≤◌, All, IfOk, OnOk, IsSome, length, map, replicate, slice_set, vec_len, Some, None};
ghost use Rattle.asm_pool.specs.code.WorkDone.{HasEachOnce, StandIn, tasks_of, tasks_by, done_by, placed};

use crate::pool_result::PoolResult;
use crate::worker::{TaskRun, Worker};
use std::alloc::{AllocError, Global};

/// A slot for the out of each task.
#[derive(Drop)]
pub(crate) struct Slots<O> {
    outs: Vec<Option<O>>,
}

impl<O: Drop> Slots<O> {
    pub(crate) fn new(alloc: Global, count: usize) -> Result<Slots<O>, AllocError>
        ensures free { IfOk result (λ p. p.outs.items ≡ replicate count None) }
        ensures room { IfOk result (λ _. count ≤ 2 ^ 63) }
    {
        let mut outs = Vec::with_capacity(alloc, count)?;
        for _i in 0..count {
            outs.push(None)?;
        }
        Ok(Slots { outs })
    }

    fn put(&mut self, task: usize, out: O)
        requires { task < vec_len self.old.outs }
        ensures { self.new.outs.items ≡ slice_set self.old.outs.items task (Some out) }
    {
        self.outs[task] = Some(out);
    }

    /// Puts each out in its task's slot, and lists the tasks.
    fn put_all(&mut self, alloc: Global, done: Vec<TaskRun<O>>) -> Result<Vec<usize>, AllocError>
        requires { All (λ d. d.task < length self.old.outs.items) done.items }
        ensures places { OnOk result (self.new.outs.items ≡ placed self.old.outs.items done.items) }
        ensures list { IfOk result (λ list. list.items ≡ tasks_of done.items) }
    {
        let mut list = Vec::with_capacity(alloc, done.len())?;
        for TaskRun { task, out } in done {
            self.put(task, out);
            list.push(task)?;
        }
        Ok(list)
    }

    fn into_outs(self, alloc: Global) -> Result<Vec<O>, AllocError>
        requires { All IsSome self.outs.items }
        ensures { IfOk result (λ v. map Some v.items ≡ self.outs.items) }
    {
        let Slots { outs: places } = self;
        let mut outs = Vec::with_capacity(alloc, places.len())?;
        for slot in places {
            outs.push(slot.unwrap())?;
        }
        Ok(outs)
    }
}

/// The outs in their slots, which are all free, and the hands and lists in the order of the
/// workers.
pub(crate) fn gather<H: Drop, O: Drop>(
    alloc: Global,
    count: usize,
    out_slots: Slots<O>,
    workers: Vec<Worker<H, O>>,
) -> Result<PoolResult<H, O>, AllocError>
    requires free { out_slots.outs.items ≡ replicate count None }
    requires once { HasEachOnce count (tasks_by workers.items) }
    ensures count { IfOk result (λ r. vec_len r.outs ≡ count) }
    ensures outs { IfOk result (λ r. StandIn r.outs.items (done_by workers.items)) }
    ensures lists { IfOk result (λ r. map (λ list. list.items) r.lists.items ≡ map (λ w. tasks_of w.done.items) workers.items) }
    ensures hands { IfOk result (λ r. r.hands.items ≡ map (λ w. w.hand) workers.items) }
{
    let mut out_slots = out_slots;
    let mut hands = Vec::with_capacity(alloc, workers.len())?;
    let mut lists = Vec::with_capacity(alloc, workers.len())?;
    for Worker { hand, done } in workers {
        lists.push(out_slots.put_all(alloc, done)?)?;
        hands.push(hand)?;
    }
    let outs = out_slots.into_outs(alloc)?;
    Ok(PoolResult { outs, hands, lists })
}
