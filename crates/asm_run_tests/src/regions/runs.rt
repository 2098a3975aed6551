//! Two workers make one step of a run.
use asm_limits::run_limits::{DEFAULTS, Limits};
use asm_pool::Gate;
use asm_run::end::EndKind;
use asm_run::error::RunError;
use asm_run::run::run_gated;
use asm_run::through::Through;
use std::sync::atomic::{AtomicBool, AtomicU64, Ordering};
use std::test::Fail;
use std::thread::Threads;

const MAX_TURNS: u32 = 100_000_000;

/// Holds task 1 until task 0 is taken a second time, and that taking until task 1 is taken. The
/// first round has task 0 alone.
#[derive(Drop)]
struct Second {
    zero_taken: AtomicU64,
    one_taken: AtomicU64,
    done: AtomicU64,
    late: AtomicBool,
}

impl Second {
    fn new() -> Second {
        Second {
            zero_taken: AtomicU64::new(0),
            one_taken: AtomicU64::new(0),
            done: AtomicU64::new(0),
            late: AtomicBool::new(false),
        }
    }

    /// Whether `tasks` tasks were done, two of them at the same time, and none was held in vain.
    fn has_happened(&self, tasks: u64) -> bool {
        self.zero_taken.load(Ordering::SeqCst) == 2
            && self.one_taken.load(Ordering::SeqCst) == 1
            && self.done.load(Ordering::SeqCst) == tasks
            && !self.late.load(Ordering::SeqCst)
    }

    fn wait_for(&self, other: &AtomicU64, times: u64) {
        for _ in 0..MAX_TURNS {
            if other.load(Ordering::SeqCst) >= times {
                return;
            }
        }
        self.late.store(true, Ordering::SeqCst);
    }
}

impl Gate for Second {
    fn taken(&self, n: usize) {
        if n == 0 {
            let before = self.zero_taken.fetch_add(1, Ordering::SeqCst);
            if before == 1 {
                self.wait_for(&self.one_taken, 1);
            }
        } else if n == 1 {
            self.one_taken.fetch_add(1, Ordering::SeqCst);
            self.wait_for(&self.zero_taken, 2);
        }
    }

    fn done(&self, _n: usize) {
        self.done.fetch_add(1, Ordering::SeqCst);
    }
}

const SWAP: &[u8] =
    b"CoreASM T\ninit M\nfunction controlled a initially 1\nfunction controlled b initially 2\n\
rule M = par a := b b := a endpar\n";

const SWAPPED: &[u8] = b"step 1 instances 0\na := 2\nb := 1\nend limit\nstate\na = 2\nb = 1\n";

const CLASH: &[u8] =
    b"CoreASM T\ninit M\nfunction controlled a initially 1\nrule M = par a := 3 a := 2 endpar\n";

const CLASHED: &[u8] = b"end clash step 1 a least 2 greatest 3\nstate\na = 1\n";

/// Two parts that are each worth a thread, as turns always are.
const TURNS: &[u8] =
    b"CoreASM T\ninit M\nfunction controlled a initially 0\nfunction controlled b initially 0\n\
rule M = par iterate if a < 2 then a := a + 1 endif enditerate\n\
iterate if b < 3 then b := b + 1 endif enditerate endpar\n";

const TURNED: &[u8] = b"step 1 instances 0\na := 2\nb := 3\nend limit\nstate\na = 2\nb = 3\n";

/// A thousand elements, in 16 pieces of 64 at most. Together they are worth two threads.
const THOUSAND: &[u8] = b"CoreASM T\ninit M\nuniverse U = 1 .. 1000\nfunction controlled a\n\
rule M = forall i in U do a := 1 + i - i + i - i + i - i + i - i + i - i + i - i + i - i + i - i \
+ i - i + i - i + i - i + i - i + i - i + i - i + i - i + i - i + i - i + i - i + i - i + i - i \
endforall\n";

const DONE: &[u8] = b"step 1 instances 1000\na := 1\nend limit\nstate\na = 1\n";

const ONE_ROUND: Limits = Limits {
    rounds: 1,
    ..DEFAULT
};

/// Two workers, and what else the program takes if no word says it.
const DEFAULT: Limits = Limits {
    steps: 1,
    workers: 2,
    ..DEFAULTS
};

/// Whether two workers make the step at the same time, by `tasks` tasks, and the run ends so with
/// this trace.
fn is_shared<R: Threads + Sync + AllocGlobal>(
    rt: &R,
    text: &[u8],
    limits: &Limits,
    tasks: u64,
    end: EndKind,
    trace: &[u8],
) -> Result<bool, RunError> {
    let gate = Second::new();
    let mut out = Through::new(Vec::new(rt.alloc()));
    let ended = run_gated(rt, rt.alloc(), &gate, text, b"", limits, &mut out)?;
    Ok(ended.kind() == end && out.into_inner().as_slice() == trace && gate.has_happened(tasks))
}

#[test]
fn run_meets(rt: HostRuntime) -> Result<(), Fail> {
    assert!(rt; is_shared(&rt, SWAP, &ONE_ROUND, 3, EndKind::Limit, SWAPPED)?);
    Ok(())
}

#[test]
fn updates_of_two_workers_clash(rt: HostRuntime) -> Result<(), Fail> {
    assert!(rt; is_shared(&rt, CLASH, &ONE_ROUND, 3, EndKind::Clash, CLASHED)?);
    Ok(())
}

/// By the default rounds little work isn't shared, but turns are.
#[test]
fn turns_meet_by_the_default_rounds(rt: HostRuntime) -> Result<(), Fail> {
    assert!(rt; is_shared(&rt, TURNS, &DEFAULT, 3, EndKind::Limit, TURNED)?);
    Ok(())
}

/// And so are many elements with much work, for which three of four workers are worth it.
#[test]
fn elements_meet_by_the_default_rounds(rt: HostRuntime) -> Result<(), Fail> {
    let four = Limits {
        workers: 4,
        cut: 16,
        ..DEFAULT
    };
    assert!(rt; is_shared(&rt, THOUSAND, &four, 64, EndKind::Limit, DONE)?);
    Ok(())
}
