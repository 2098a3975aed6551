//! Two that wait for each other, for `MAX_TURNS` turns at most.
use std::sync::atomic::{AtomicBool, AtomicU64, Ordering};

const MAX_TURNS: u32 = 100_000_000;

/// Whether each of two has come, how often, and whether one waited in vain.
#[derive(Drop)]
pub struct Meeting {
    first: AtomicU64,
    second: AtomicU64,
    late: AtomicBool,
}

impl Meeting {
    pub fn new() -> Meeting {
        Meeting {
            first: AtomicU64::new(0),
            second: AtomicU64::new(0),
            late: AtomicBool::new(false),
        }
    }

    /// The first comes, and waits for the second.
    pub fn first_comes(&self) {
        self.first.fetch_add(1, Ordering::SeqCst);
        self.wait_for(&self.second);
    }

    /// The second comes, and waits for the first.
    pub fn second_comes(&self) {
        self.second.fetch_add(1, Ordering::SeqCst);
        self.wait_for(&self.first);
    }

    fn wait_for(&self, other: &AtomicU64) {
        for _ in 0..MAX_TURNS {
            if other.load(Ordering::SeqCst) > 0 {
                return;
            }
        }
        self.late.store(true, Ordering::SeqCst);
    }

    /// Whether both came once, and neither waited in vain.
    pub fn happened_once(&self) -> bool {
        self.first.load(Ordering::SeqCst) == 1
            && self.second.load(Ordering::SeqCst) == 1
            && !self.late.load(Ordering::SeqCst)
    }
}
