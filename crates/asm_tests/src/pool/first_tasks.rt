//! The first task of each worker: it lies in the lane that is the worker's own.
use super::Adding;
use asm_pool::{Gate, work};
use std::sync::atomic::{AtomicBool, AtomicU64, Ordering};
use std::test::Fail;

const MAX_TURNS: u32 = 100_000_000;

/// Holds each of the first four tasks that are taken until all four are, so that four workers take
/// one each. It counts how many of them lie in each lane.
#[derive(Drop)]
struct FirstFour {
    taken: AtomicU64,
    by_lane: [AtomicU64; 4],
    late: AtomicBool,
}

impl FirstFour {
    fn new() -> FirstFour {
        FirstFour {
            taken: AtomicU64::new(0),
            by_lane: [
                AtomicU64::new(0),
                AtomicU64::new(0),
                AtomicU64::new(0),
                AtomicU64::new(0),
            ],
            late: AtomicBool::new(false),
        }
    }

    fn wait_for_four(&self) {
        for _ in 0..MAX_TURNS {
            if self.taken.load(Ordering::SeqCst) >= 4 {
                return;
            }
        }
        self.late.store(true, Ordering::SeqCst);
    }

    /// Whether they lie in four lanes, and none was held in vain.
    fn are_apart(&self) -> bool {
        let [first, second, third, fourth] = &self.by_lane;
        first.load(Ordering::SeqCst) == 1
            && second.load(Ordering::SeqCst) == 1
            && third.load(Ordering::SeqCst) == 1
            && fourth.load(Ordering::SeqCst) == 1
            && !self.late.load(Ordering::SeqCst)
    }
}

impl Gate for FirstFour {
    fn taken(&self, task: usize) {
        if self.taken.fetch_add(1, Ordering::SeqCst) < 4 {
            self.by_lane[task % 4].fetch_add(1, Ordering::SeqCst);
            self.wait_for_four();
        }
    }

    fn done(&self, _task: usize) {}
}

/// If all began at the same lane, they would stand in each other's way.
#[test]
fn each_worker_begins_at_its_own_lane(rt: HostRuntime) -> Result<(), Fail> {
    let gate = FirstFour::new();
    let hands = vec![in rt.alloc(); 0u64, 0, 0, 0]?;
    let worked = work(&rt, rt.alloc(), 4, 12, &Adding, hands, &gate)?;
    assert!(rt; gate.are_apart() && worked.outs.len() == 12);
    Ok(())
}
