//! One worker's work: it draws tasks from the lanes and runs them.
//!
//! A draw is one atomic step, and workers have no other access to the lanes, so no worker waits for
//! another. From one lane a seat draws only greater numbers than before, so a worker is past the
//! end of each lane after a bounded number of draws. A seat draws past the end of a lane at most as
//! often as it has parts. This bounds the word of the lane, so it never wraps
//! (`specs/code/Lanes.antt`).
ghost use Rattle.std.specs.Prelude.{◌≡◌, ◌==◌, ℕ, ◌+◌, ◌<◌, ◌∷◌, [], IfOk, OnOk, if◌then◌else◌};
ghost use Rattle.asm_pool.specs.code.Lanes.{past, seat_view};
ghost use Rattle.asm_pool.specs.code.Pool.{IsRun};
ghost use Rattle.asm_pool.specs.code.WorkersAndSeats.{WorksOn, IsDoneByWorkers};

use crate::gate::Gate;
use crate::job::Job;
use crate::lanes::{LaneSeat, Lanes};
use crate::worker::{Worker, run_one};
use std::alloc::{AllocError, Global};

/// Draws from the lane until it is past the end, and runs each task that it draws.
fn work_lane<H: Drop, O: Drop, J: Job<Hand = H, Out = O>, G: Gate>(
    lanes: &Lanes,
    lane: usize,
    job: &J,
    gate: &G,
    worker: &mut Worker<H, O>,
    seat: &mut LaneSeat,
) -> Result<(), AllocError>
    requires seat { (seat.old.table_id ≡ lanes.now.table.shared.table_id) × (seat.old.me.1 ≡ []) × (seat.old.me.0.lanes ≡ lanes.now.shape.lanes) }
    requires lane { lane < lanes.now.shape.lanes }
    requires part { past lanes.now.shape.lanes lanes.now.shape.count lane seat.old.me.0.drawn < seat.old.me.0.parts }
    requires tasks { (n : ℕ) → n < lanes.now.shape.count → J.has_task job.now n }
    requires hand { J.takes_hand job.now worker.old.hand }
    ensures seat { (seat.new.table_id ≡ seat.old.table_id) × (seat.new.me.1 ≡ []) × (seat.new.me.0.lanes ≡ seat.old.me.0.lanes) × (seat.new.me.0.parts ≡ seat.old.me.0.parts) }
    ensures hand { J.takes_hand job.now worker.new.hand }
    ensures works { OnOk result (WorksOn (IsRun (J.takes_hand job.now) (J.runs job.now)) lanes.now.shape.count seat.old.me.0 seat.new.me.0 worker.old worker.new) }
    ensures ends { OnOk result ((other : ℕ) → past lanes.now.shape.lanes lanes.now.shape.count other seat.new.me.0.drawn
        ≡ past lanes.now.shape.lanes lanes.now.shape.count other seat.old.me.0.drawn + (if other == lane then 1 else 0)) }
{
    'draws: loop {
        let number = lanes.draw(seat, lane);
        let Some(task) = lanes.task(lane, number) else {
            return Ok(());
        };
        worker.done.reserve(1)?;
        let done = run_one(job, gate, task, &mut worker.hand);
        worker.done.push_reserved(done);
    }
}

/// Empties its own lane, and then the others in turn.
pub(crate) fn work_all_lanes<H: Drop, O: Drop, J: Job<Hand = H, Out = O>, G: Gate>(
    alloc: Global,
    lanes: &Lanes,
    own: usize,
    job: &J,
    hand: H,
    gate: &G,
    seat: LaneSeat,
) -> Result<(Worker<H, O>, LaneSeat), AllocError>
    requires seat { (seat.table_id ≡ lanes.now.table.shared.table_id) × (seat.me ≡ (seat_view lanes.now.shape.lanes 1 [], [])) }
    requires own { own < lanes.now.shape.lanes }
    requires tasks { (n : ℕ) → n < lanes.now.shape.count → J.has_task job.now n }
    requires hand { J.takes_hand job.now hand }
    ensures seat { IfOk result (λ r. (r.1.table_id ≡ seat.table_id) × (r.1.me.1 ≡ [])) }
    ensures fit { IfOk result (λ r. J.takes_hand job.now r.0.hand) }
    ensures worked { IfOk result (λ r. IsDoneByWorkers (IsRun (J.takes_hand job.now) (J.runs job.now)) lanes.now.shape.lanes lanes.now.shape.count (hand ∷ []) (r.0 ∷ []) r.1.me.0) }
{
    let mut seat = seat;
    let mut worker = Worker {
        hand,
        done: Vec::new(alloc),
    };
    for turn in 0..lanes.count() {
        let lane = (own + turn) % lanes.count();
        work_lane(lanes, lane, job, gate, &mut worker, &mut seat)?;
    }
    Ok((worker, seat))
}
