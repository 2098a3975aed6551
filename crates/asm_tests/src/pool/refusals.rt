//! Work that is refused memory. The test says more if it is: `.ci/refusals` refuses each of its
//! requests in turn.
ghost use Rattle.std.specs.Prelude.{◌≡◌};

use asm_pool::{Job, NoGate, PoolError, work};
use std::sync::atomic::{AtomicU64, Ordering};
use std::test::Fail;

/// How many turns a task takes, more than a thread needs to start.
const TURNS: u32 = 100_000;

/// Counts the runs that began, and those that ended.
#[derive(Drop)]
struct Runs {
    begun: AtomicU64,
    ended: AtomicU64,
}

/// Tasks whose runs are counted, and which take a while.
#[derive(Clone, Copy)]
struct Counted<'a> {
    runs: &'a Runs,
}

impl Job for Counted<'_> {
    type Hand = u64;

    type Out = usize;

    ghost has_task = { λ job n. Unit {0} };

    ghost takes_hand = { λ job hand. Unit {0} };

    ghost runs = { λ job n before out after. (out ≡ n) × (after ≡ before) };

    fn run(&self, task: usize, _hand: &mut u64) -> usize {
        self.runs.begun.fetch_add(1, Ordering::SeqCst);
        for _ in 0..TURNS {
            std::hint::spin_loop();
        }
        self.runs.ended.fetch_add(1, Ordering::SeqCst);
        task
    }
}

/// The tasks of `two_on_one_lane`, without a gate.
#[test]
fn a_refusal_leaves_no_worker(rt: HostRuntime) -> Result<(), Fail> {
    let runs = Runs {
        begun: AtomicU64::new(0),
        ended: AtomicU64::new(0),
    };
    let job = Counted { runs: &runs };
    let hands = vec![in rt.alloc(); 0u64, 0]?;
    let outs_are_right = match work(&rt, rt.alloc(), 2, 3, &job, hands, &NoGate) {
        Ok(worked) => Some(worked.outs.as_slice() == [0, 1, 2].as_slice()),
        Err(PoolError::Memory) => None,
    };
    let ended = runs.ended.load(Ordering::SeqCst);
    assert!(rt; runs.begun.load(Ordering::SeqCst) == ended);
    for _ in 0..2 * TURNS {
        std::hint::spin_loop();
    }
    assert!(rt; runs.begun.load(Ordering::SeqCst) == ended);
    match outs_are_right {
        Some(are_right) => assert!(rt; are_right && ended == 3),
        None => assert!(rt; ended <= 3),
    }
    Ok(())
}
