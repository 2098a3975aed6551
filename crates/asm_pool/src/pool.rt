//! Starts the workers, and puts together what they did.
//!
//! After the last join one seat has all parts and all draws (`HasDrawnAll`), and it is past the end
//! of each lane. So it has drawn each task exactly once, and the workers ran exactly the tasks that
//! their seats drew (`IsDoneByWorkers`).
ghost use denote.Param.Send.{IsSend, IsSync};
ghost use Rattle.std.specs.Prelude.{◌≡◌, ℕ, ◌^◌, ◌<◌, ◌≤◌, [], All, IfOk, IsOk, drop, vec_len};
ghost use Rattle.asm_pool.specs.code.Lanes.{AreLanes};
ghost use Rattle.asm_pool.specs.code.Pool.{Works};
ghost use Rattle.asm_pool.specs.code.WorkersAndSeats.{AddsIdle, AreBoth, CanWork, HaveRunAll, HaveWorked};

use crate::gate::Gate;
use crate::gather::{Slots, gather};
use crate::job::Job;
use crate::lanes::{LaneSeat, Lanes};
use crate::pool_result::{PoolError, PoolResult};
use crate::work_lanes::work_all_lanes;
use crate::worker::{Worker, idle_workers};
use std::alloc::{AllocError, Global};
use std::thread::{Threads, join};

/// The workers of some hands, and the seat that has their draws.
type HandedBack<H, O> = (Vec<Worker<H, O>>, LaneSeat);

/// One worker, as a list.
fn work_one<H: Drop, O: Drop, J: Job<Hand = H, Out = O>, G: Gate>(
    alloc: Global,
    lanes: &Lanes,
    own: usize,
    job: &J,
    mut hands: Vec<H>,
    gate: &G,
    seat: LaneSeat,
) -> Result<HandedBack<H, O>, AllocError>
    requires one { vec_len hands ≡ 1 }
    requires ready { CanWork (J.has_task job.now) (J.takes_hand job.now) lanes.now own hands.items seat }
    ensures { IfOk result (λ r. HaveWorked (J.takes_hand job.now) (J.runs job.now) lanes.now hands.items r.0.items r.1) }
{
    let mut workers = Vec::with_capacity(alloc, 1)?;
    let hand = hands.pop().unwrap();
    let (worker, seat) = work_all_lanes(alloc, lanes, own, job, hand, gate, seat)?;
    workers.push(worker)?;
    Ok((workers, seat))
}

/// What two halves of the workers have done, as one. The seat of the others is joined to the first.
fn joined_halves<H: Drop, O: Drop>(
    lanes: &Lanes,
    these: Result<HandedBack<H, O>, AllocError>,
    those: Result<HandedBack<H, O>, AllocError>,
) -> Result<HandedBack<H, O>, AllocError>
    requires seat { IfOk these (λ a. (a.1.table_id ≡ lanes.now.table.shared.table_id) × (a.1.me.1 ≡ []) × (0 < a.1.me.0.parts)) }
    requires other { IfOk those (λ b. (b.1.table_id ≡ lanes.now.table.shared.table_id) × (b.1.me.1 ≡ [])) }
    ensures { IfOk result (λ r. IsOk these × IsOk those × IfOk these (λ a. IfOk those (λ b. AreBoth a.0.items a.1 b.0.items b.1 r.0.items r.1))) }
{
    let (mut workers, mut seat) = these?;
    let (mut more, other) = those?;
    workers.append(&mut more)?;
    lanes.join(&mut seat, other);
    Ok((workers, seat))
}

/// A worker for each hand, whose own lanes are those from `first` on. The hands are halved at each
/// step, and one half goes to a new thread.
#[cycle(halves)]
fn work_halves<
    R: Threads + Sync,
    H: Send + Drop,
    O: Send + Drop,
    J: Job<Hand = H, Out = O> + Sync,
    G: Gate + Sync,
>(
    rt: &R,
    alloc: Global,
    lanes: &Lanes,
    first: usize,
    job: &J,
    mut hands: Vec<H>,
    gate: &G,
    mut seat: LaneSeat,
) -> Result<HandedBack<H, O>, AllocError>
    requires ready { CanWork (J.has_task job.now) (J.takes_hand job.now) lanes.now first hands.items seat }
    ensures { IfOk result (λ r. HaveWorked (J.takes_hand job.now) (J.runs job.now) lanes.now hands.items r.0.items r.1) }
{
    if hands.len() == 1 {
        return work_one(alloc, lanes, first, job, hands, gate, seat);
    }
    let half = hands.len() / 2;
    let stay = hands.len() - half;
    let next = first + stay;
    let others = hands.split_off(stay)?;
    let slot = lanes.split(&mut seat);
    let here = move || -> Result<HandedBack<H, O>, AllocError>
        requires { IsSync R.row × IsSync J.row × IsSync G.row × IsSend H.row × IsSend O.row
            × CanWork (J.has_task job.now) (J.takes_hand job.now) lanes.now first hands.items seat }
        ensures { IfOk result (λ r. HaveWorked (J.takes_hand job.entry.now) (J.runs job.entry.now) lanes.entry.now hands.items r.0.items r.1) }
    { work_halves(rt, alloc, lanes, first, job, hands, gate, seat) };
    let there = move || -> Result<HandedBack<H, O>, AllocError>
        requires { IsSync R.row × IsSync J.row × IsSync G.row × IsSend H.row × IsSend O.row
            × CanWork (J.has_task job.now) (J.takes_hand job.now) lanes.now next others.items slot }
        ensures { IfOk result (λ r. HaveWorked (J.takes_hand job.entry.now) (J.runs job.entry.now) lanes.entry.now others.items r.0.items r.1) }
    { work_halves(rt, alloc, lanes, next, job, others, gate, slot) };
    let (those, these) = join(rt, there, here);
    joined_halves(lanes, these, those)
}

/// A worker for each hand, each with a lane of its own, and together they run all tasks.
fn work_lanes<
    R: Threads + Sync,
    H: Send + Drop,
    O: Send + Drop,
    J: Job<Hand = H, Out = O> + Sync,
    G: Gate + Sync,
>(
    rt: &R,
    alloc: Global,
    count: usize,
    job: &J,
    hands: Vec<H>,
    gate: &G,
) -> Result<Vec<Worker<H, O>>, AllocError>
    requires some { AreLanes (vec_len hands) }
    requires room { count ≤ 2 ^ 63 }
    requires tasks { (n : ℕ) → n < count → J.has_task job.now n }
    requires hands { All (J.takes_hand job.now) hands.items }
    ensures { IfOk result (λ ws. HaveRunAll (J.takes_hand job.now) (J.runs job.now) count hands.items ws.items) }
{
    let (lanes, seat) = Lanes::open(alloc, hands.len(), count)?;
    let (workers, seat) = work_halves(rt, alloc, &lanes, 0, job, hands, gate, seat)?;
    lanes.close(seat);
    Ok(workers)
}

/// The workers, and after them one for each of the other hands, which has done nothing.
fn with_idle<H: Drop, O: Drop>(
    alloc: Global,
    mut workers: Vec<Worker<H, O>>,
    others: Vec<H>,
) -> Result<Vec<Worker<H, O>>, AllocError>
    ensures { IfOk result (λ ws. AddsIdle others.items workers.items ws.items) }
{
    let mut idle = idle_workers(alloc, others)?;
    workers.append(&mut idle)?;
    Ok(workers)
}

/// At most `max_workers` workers, each with a lane of its own, run all tasks. No thread is started
/// for a lane that could have no task, and the hands after them stay idle.
fn work_all<
    R: Threads + Sync,
    H: Send + Drop,
    O: Send + Drop,
    J: Job<Hand = H, Out = O> + Sync,
    G: Gate + Sync,
>(
    rt: &R,
    alloc: Global,
    max_workers: usize,
    count: usize,
    job: &J,
    mut hands: Vec<H>,
    gate: &G,
) -> Result<Vec<Worker<H, O>>, AllocError>
    requires some { AreLanes (vec_len hands) }
    requires most { 0 < max_workers }
    requires room { count ≤ 2 ^ 63 }
    requires tasks { (n : ℕ) → n < count → J.has_task job.now n }
    requires hands { All (J.takes_hand job.now) hands.items }
    ensures ran { IfOk result (λ ws. HaveRunAll (J.takes_hand job.now) (J.runs job.now) count hands.items ws.items) }
    ensures idle { IfOk result (λ ws. All (λ w. w.done.items ≡ []) (drop max_workers ws.items)) }
{
    let busy = hands.len().min(max_workers).min(count.max(1));
    let others = hands.split_off(busy)?;
    let workers = work_lanes(rt, alloc, count, job, hands, gate)?;
    let all = with_idle(alloc, workers, others)?;
    Ok(all)
}

/// Runs each task below the count once, by at most `max_workers` of the workers, which are those of
/// the first hands.
///
/// The tasks lie in as many lanes as workers take part: task `n` in the lane `n % lanes`. A worker
/// draws tasks from its own lane until there are none left, and then from each other lane in turn,
/// one at a time and each lane's in rising order. No worker takes part if it could have no task, so
/// if there is one task, or one worker at most, no thread is started.
///
/// The caller's own thread is the first worker, and each other one has a thread of its own. If no
/// thread can be made, the one that asked for it does that worker's part too. Slots for all outs
/// are made before any task is run.
pub fn work_by<
    R: Threads + Sync,
    J: Job<Hand = H, Out = O> + Sync,
    G: Gate + Sync,
    H: Send + Drop,
    O: Send + Drop,
>(
    rt: &R,
    alloc: Global,
    lanes: usize,
    max_workers: usize,
    count: usize,
    job: &J,
    hands: Vec<H>,
    gate: &G,
) -> Result<PoolResult<H, O>, PoolError>
    requires lanes { AreLanes lanes }
    requires most { 0 < max_workers }
    requires hands { vec_len hands ≡ lanes }
    requires tasks { (n : ℕ) → n < count → J.has_task job.now n }
    requires fit { All (J.takes_hand job.now) hands.items }
    ensures work { IfOk result (Works (J.takes_hand job.now) (J.runs job.now) lanes count hands.items) }
    ensures idle { IfOk result (λ w. All (λ list. vec_len list ≡ 0) (drop max_workers w.lists.items)) }
{
    let out_slots = Slots::new(alloc, count)?;
    let workers = work_all(rt, alloc, max_workers, count, job, hands, gate)?;
    Ok(gather(alloc, count, out_slots, workers)?)
}

/// Runs each task below the count once, by as many workers as there are hands, as `work_by` does.
pub fn work<
    R: Threads + Sync,
    J: Job<Hand = H, Out = O> + Sync,
    G: Gate + Sync,
    H: Send + Drop,
    O: Send + Drop,
>(
    rt: &R,
    alloc: Global,
    lanes: usize,
    count: usize,
    job: &J,
    hands: Vec<H>,
    gate: &G,
) -> Result<PoolResult<H, O>, PoolError>
    requires lanes { AreLanes lanes }
    requires hands { vec_len hands ≡ lanes }
    requires tasks { (n : ℕ) → n < count → J.has_task job.now n }
    requires fit { All (J.takes_hand job.now) hands.items }
    ensures { IfOk result (Works (J.takes_hand job.now) (J.runs job.now) lanes count hands.items) }
{
    work_by(rt, alloc, lanes, lanes, count, job, hands, gate)
}
