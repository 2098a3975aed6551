//! Tasks that meet: two workers are seen to run at once.
ghost use Rattle.std.specs.Prelude.{◌≡◌, ◌<◌};

use super::Adding;
use asm_pool::{Gate, Job, NoGate, PoolError, PoolResult, work};
use std::sync::atomic::{AtomicBool, AtomicU8, AtomicU64, Ordering};
use std::test::Fail;
use std::thread::Threads;

const MAX_TURNS: u32 = 100_000_000;

/// Where two tasks meet: who comes waits for the other.
#[derive(Drop)]
struct Meeting {
    tasks: [usize; 2],
    come: [AtomicBool; 2],
    met: AtomicU64,
    late: AtomicBool,
}

impl Meeting {
    fn of(tasks: [usize; 2]) -> Meeting {
        Meeting {
            tasks,
            come: [AtomicBool::new(false), AtomicBool::new(false)],
            met: AtomicU64::new(0),
            late: AtomicBool::new(false),
        }
    }

    fn meet(&self, task: usize) {
        let [one, other] = self.tasks;
        let [first, second] = &self.come;
        if task == one {
            self.wait(first, second);
        } else if task == other {
            self.wait(second, first);
        }
    }

    fn wait(&self, mine: &AtomicBool, other: &AtomicBool) {
        mine.store(true, Ordering::SeqCst);
        for _ in 0..MAX_TURNS {
            if other.load(Ordering::SeqCst) {
                self.met.fetch_add(1, Ordering::SeqCst);
                return;
            }
        }
        self.late.store(true, Ordering::SeqCst);
    }

    /// How many have met the other. None of them has waited in vain.
    fn met(&self) -> u64 {
        if self.late.load(Ordering::SeqCst) {
            return 0;
        }
        self.met.load(Ordering::SeqCst)
    }
}

/// How far each of two tasks is: 0 at first, 1 once it is taken, 2 once it is run, 3 once it is
/// done.
#[derive(Drop)]
struct Steps {
    tasks: [usize; 2],
    first: AtomicU8,
    second: AtomicU8,
    astray: AtomicBool,
}

impl Steps {
    fn of(tasks: [usize; 2]) -> Steps {
        Steps {
            tasks,
            first: AtomicU8::new(0),
            second: AtomicU8::new(0),
            astray: AtomicBool::new(false),
        }
    }

    fn go(&self, task: usize, from: u8, to: u8) {
        let [one, other] = self.tasks;
        let step = if task == one {
            &self.first
        } else if task == other {
            &self.second
        } else {
            return;
        };
        if step
            .compare_exchange(from, to, Ordering::SeqCst, Ordering::SeqCst)
            .is_err()
        {
            self.astray.store(true, Ordering::SeqCst);
        }
    }

    /// Both are done, by each step once and in order.
    fn are_done(&self) -> bool {
        !self.astray.load(Ordering::SeqCst)
            && self.first.load(Ordering::SeqCst) == 3
            && self.second.load(Ordering::SeqCst) == 3
    }
}

/// Holds each of two tasks that are taken until the other is.
#[derive(Clone, Copy)]
struct Holding<'a> {
    steps: &'a Steps,
    meeting: &'a Meeting,
}

impl Gate for Holding<'_> {
    fn taken(&self, task: usize) {
        self.steps.go(task, 0, 1);
        self.meeting.meet(task);
    }

    fn done(&self, task: usize) {
        self.steps.go(task, 2, 3);
    }
}

/// Tasks, two of which are seen to run.
#[derive(Clone, Copy)]
struct Seen<'a> {
    steps: &'a Steps,
}

impl Job for Seen<'_> {
    type Hand = u64;

    type Out = usize;

    ghost has_task = { λ job n. Unit {0} };

    ghost takes_hand = { λ job hand. Unit {0} };

    ghost runs = { λ job n before out after. (out ≡ n) × (after ≡ before) };

    fn run(&self, task: usize, _hand: &mut u64) -> usize {
        self.steps.go(task, 1, 2);
        task
    }
}

/// Tasks, two of which meet while they run.
#[derive(Clone, Copy)]
struct Joined<'a> {
    meeting: &'a Meeting,
}

impl Job for Joined<'_> {
    type Hand = u64;

    type Out = usize;

    ghost has_task = { λ job n. Unit {0} };

    ghost takes_hand = { λ job hand. Unit {0} };

    ghost runs = { λ job n before out after. (out ≡ n) × (after ≡ before) };

    fn run(&self, task: usize, _hand: &mut u64) -> usize {
        self.meeting.meet(task);
        task
    }
}

/// What two workers return for `count` tasks, if each of two tasks that are taken is held until the
/// other is; and whether these met, and went from step to step.
fn held<R: Threads + AllocGlobal + Sync>(
    rt: &R,
    count: usize,
    tasks: [usize; 2],
) -> Result<(bool, PoolResult<u64, usize>), PoolError> {
    let steps = Steps::of(tasks);
    let meeting = Meeting::of(tasks);
    let gate = Holding {
        steps: &steps,
        meeting: &meeting,
    };
    let job = Seen { steps: &steps };
    let hands = vec![in rt.alloc(); 0u64, 0]?;
    let worked = work(rt, rt.alloc(), 2, count, &job, hands, &gate)?;
    Ok((meeting.met() == 2 && steps.are_done(), worked))
}

/// What two workers return for `count` tasks, two of which wait for each other while they run; and
/// whether these met.
fn waiting<R: Threads + AllocGlobal + Sync>(
    rt: &R,
    count: usize,
    tasks: [usize; 2],
) -> Result<(bool, PoolResult<u64, usize>), PoolError> {
    let meeting = Meeting::of(tasks);
    let job = Joined { meeting: &meeting };
    let hands = vec![in rt.alloc(); 0u64, 0]?;
    let worked = work(rt, rt.alloc(), 2, count, &job, hands, &NoGate)?;
    Ok((meeting.met() == 2, worked))
}

/// Whether there are two lists of tasks, and these.
fn lists_are(worked: &PoolResult<u64, usize>, first: &[usize], second: &[usize]) -> bool {
    match worked.lists.as_slice() {
        [one, other] => one.as_slice() == first && other.as_slice() == second,
        _ => false,
    }
}

/// Whether there are two lists of tasks, and the first has one of these two tasks.
fn ran_one_of(worked: &PoolResult<u64, usize>, task: usize, other: usize) -> bool {
    match worked.lists.as_slice() {
        [first, _] => first.contains(&task) != first.contains(&other),
        _ => false,
    }
}

#[test]
fn two_lanes_meet(rt: HostRuntime) -> Result<(), Fail> {
    let (have_met, worked) = held(&rt, 2, [0, 1])?;
    assert!(rt; have_met);
    assert!(rt; lists_are(&worked, &[0], &[1]));
    Ok(())
}

#[test]
fn two_runs_meet(rt: HostRuntime) -> Result<(), Fail> {
    let (have_met, worked) = waiting(&rt, 2, [0, 1])?;
    assert!(rt; have_met);
    assert_eq!(rt; worked.outs.as_slice(), [0, 1].as_slice());
    Ok(())
}

/// Both tasks lie in the first lane, so neither one worker alone nor fixed shares can pass.
#[test]
fn two_on_one_lane(rt: HostRuntime) -> Result<(), Fail> {
    let (have_met, worked) = held(&rt, 3, [0, 2])?;
    assert!(rt; have_met);
    assert_eq!(rt; worked.outs.as_slice(), [0, 1, 2].as_slice());
    assert!(rt; ran_one_of(&worked, 0, 2));
    Ok(())
}

/// Two runs of the first lane's tasks meet.
#[test]
fn two_runs_of_one_lane_meet(rt: HostRuntime) -> Result<(), Fail> {
    let (have_met, worked) = waiting(&rt, 3, [0, 2])?;
    assert!(rt; have_met);
    assert_eq!(rt; worked.outs.as_slice(), [0, 1, 2].as_slice());
    Ok(())
}

/// Holds the task 0 until all others are done.
#[derive(Drop)]
struct HoldingOne {
    others: u64,
    done: AtomicU64,
    held: AtomicBool,
    late: AtomicBool,
}

impl HoldingOne {
    /// Whether the task 0 was held until then, and not in vain.
    fn has_held(&self) -> bool {
        self.held.load(Ordering::SeqCst) && !self.late.load(Ordering::SeqCst)
    }
}

impl Gate for HoldingOne {
    fn taken(&self, task: usize) {
        if task != 0 {
            return;
        }
        for _ in 0..MAX_TURNS {
            if self.done.load(Ordering::SeqCst) == self.others {
                self.held.store(true, Ordering::SeqCst);
                return;
            }
        }
        self.late.store(true, Ordering::SeqCst);
    }

    fn done(&self, task: usize) {
        if task != 0 {
            self.done.fetch_add(1, Ordering::SeqCst);
        }
    }
}

/// While one worker is held in a task, the others run all other tasks, those of its lane too.
#[test]
fn one_worker_is_held(rt: HostRuntime) -> Result<(), Fail> {
    let gate = HoldingOne {
        others: 29,
        done: AtomicU64::new(0),
        held: AtomicBool::new(false),
        late: AtomicBool::new(false),
    };
    let hands = vec![in rt.alloc(); 0u64, 0, 0]?;
    let worked = work(&rt, rt.alloc(), 3, 30, &Adding, hands, &gate)?;
    assert!(rt; gate.has_held() && worked.outs.len() == 30);
    Ok(())
}
