//! What `work` and `work_by` return, against plain arithmetic.
ghost use Rattle.std.specs.Prelude.{◌≤◌, ◌<◌, length};

use super::Adding;
use asm_pool::{NoGate, PoolError, PoolResult, work, work_by};
use std::test::Fail;
use std::thread::Threads;

/// The hand after the runs of one worker's tasks, if each out is the hand's sum before that run.
fn replayed(hand: u64, list: &[usize], outs: &[u64]) -> Option<u64> {
    let mut sum = hand;
    for task in list {
        if *outs.get(*task)? != sum {
            return None;
        }
        sum = sum.wrapping_add(*task as u64);
    }
    Some(sum)
}

/// Each worker's list tells its hand and the outs, from the hands before.
fn tells_its_runs(before: &[u64], worked: &PoolResult<u64, u64>) -> bool {
    for (worker, hand) in before.iter().enumerate() {
        let Some(list) = worked.lists.get(worker) else {
            return false;
        };
        let Some(after) = replayed(*hand, list.as_slice(), worked.outs.as_slice()) else {
            return false;
        };
        if worked.hands.get(worker) != Some(&after) {
            return false;
        }
    }
    true
}

/// How many tasks all lists have together.
fn tasks_in_lists(worked: &PoolResult<u64, u64>) -> usize {
    let mut tasks = 0usize;
    for list in worked.lists.iter() {
        tasks = tasks.wrapping_add(list.len());
    }
    tasks
}

/// What as many workers as there are hands do with `count` tasks.
fn worked_by_all<R: Threads + AllocGlobal + Sync>(
    rt: &R,
    hands: &[u64],
    count: usize,
) -> Result<PoolResult<u64, u64>, PoolError>
    requires { (0 < length hands.now) × (length hands.now ≤ 32) }
{
    let own = hands.to_vec(rt.alloc())?;
    work(rt, rt.alloc(), hands.len(), count, &Adding, own, &NoGate)
}

/// Whether this is what workers with these hands can do with `count` tasks.
fn tells_one_run(before: &[u64], count: usize, worked: &PoolResult<u64, u64>) -> bool {
    worked.outs.len() == count
        && tasks_in_lists(worked) == count
        && worked.hands.len() == before.len()
        && tells_its_runs(before, worked)
}

/// Whether this is what one worker with the hand 100 does with five tasks, next to others who do
/// nothing, whose hands stay these.
fn is_in_order(worked: &PoolResult<u64, u64>, others: &[u64]) -> bool {
    first_in_order(worked, others.len())
        && worked.outs.as_slice() == IN_ORDER.as_slice()
        && match worked.hands.split_first() {
            Some((first, behind)) => *first == 110 && behind == others,
            None => false,
        }
}

#[test]
fn hands_and_outs_tell_one_run(rt: HostRuntime) -> Result<(), Fail> {
    let before = [100u64, 200, 300];
    let worked = worked_by_all(&rt, &before, 7)?;
    assert!(rt; tells_one_run(&before, 7, &worked));
    Ok(())
}

fn sum_of(hands: &[u64]) -> u64 {
    let mut sum = 0u64;
    for hand in hands {
        sum = sum.wrapping_add(*hand);
    }
    sum
}

#[test]
fn thousands_of_tasks(rt: HostRuntime) -> Result<(), Fail> {
    let before = [0u64, 1000, 2000, 3000, 4000];
    let worked = worked_by_all(&rt, &before, 4003)?;
    let sum = sum_of(worked.hands.as_slice());
    assert!(rt; tells_one_run(&before, 4003, &worked) && sum == 8_020_003);
    Ok(())
}

/// The outs of five tasks that one worker runs in order, whose hand is 100.
static IN_ORDER: [u64; 5] = [100, 100, 101, 103, 106];

/// Whether the first list has five tasks in order, and there are `idle` more, all without tasks.
fn first_in_order(worked: &PoolResult<u64, u64>, idle: usize) -> bool {
    match worked.lists.split_first() {
        Some((first, others)) => {
            first.as_slice() == [0, 1, 2, 3, 4].as_slice()
                && others.len() == idle
                && others.iter().all(|list| list.is_empty())
        }
        None => false,
    }
}

#[test]
fn one_lane_in_order(rt: HostRuntime) -> Result<(), Fail> {
    let worked = worked_by_all(&rt, &[100], 5)?;
    assert!(rt; is_in_order(&worked, &[]));
    Ok(())
}

/// The hands of three workers.
static OF_THREE: [u64; 3] = [100, 200, 300];

/// What at most `most` of three workers do with `count` tasks.
fn worked_by_three<R: Threads + AllocGlobal + Sync>(
    rt: &R,
    most: usize,
    count: usize,
) -> Result<PoolResult<u64, u64>, PoolError>
    requires { 0 < most }
{
    let hands = OF_THREE.as_slice().to_vec(rt.alloc())?;
    work_by(rt, rt.alloc(), 3, most, count, &Adding, hands, &NoGate)
}

#[test]
fn one_of_three_works(rt: HostRuntime) -> Result<(), Fail> {
    let worked = worked_by_three(&rt, 1, 5)?;
    assert!(rt; is_in_order(&worked, &[200, 300]));
    Ok(())
}

#[test]
fn two_of_three_work(rt: HostRuntime) -> Result<(), Fail> {
    let worked = worked_by_three(&rt, 2, 100)?;
    let last = worked.hands.last().copied();
    assert!(rt; tells_one_run(&OF_THREE, 100, &worked) && last == Some(300));
    Ok(())
}

/// The hands of four workers.
static OF_FOUR: [u64; 4] = [7, 8, 9, 10];

/// Whether this is what four workers do with `count` tasks, fewer than there are workers: the last
/// does none.
fn leaves_one_idle(worked: &PoolResult<u64, u64>, count: usize) -> bool {
    tells_one_run(&OF_FOUR, count, worked)
        && worked.lists.len() == 4
        && worked.lists.last().is_some_and(|list| list.is_empty())
}

#[test]
fn no_task_for_four_lanes(rt: HostRuntime) -> Result<(), Fail> {
    let none = worked_by_all(&rt, &OF_FOUR, 0)?;
    assert!(rt; leaves_one_idle(&none, 0) && none.hands.as_slice() == OF_FOUR.as_slice());
    Ok(())
}

#[test]
fn one_task_for_four_lanes(rt: HostRuntime) -> Result<(), Fail> {
    let one = worked_by_all(&rt, &OF_FOUR, 1)?;
    let are_same = one.hands.as_slice() == OF_FOUR.as_slice();
    assert!(rt; are_same && one.outs.as_slice() == [7].as_slice());
    Ok(())
}

#[test]
fn three_tasks_for_four_lanes(rt: HostRuntime) -> Result<(), Fail> {
    let three = worked_by_all(&rt, &OF_FOUR, 3)?;
    assert!(rt; leaves_one_idle(&three, 3));
    Ok(())
}

#[test]
fn too_many_tasks_have_no_room(rt: HostRuntime) -> Result<(), Fail> {
    let refused = worked_by_all(&rt, &OF_FOUR, usize::MAX);
    assert!(rt; matches!(refused, Err(PoolError::Memory)));
    Ok(())
}
