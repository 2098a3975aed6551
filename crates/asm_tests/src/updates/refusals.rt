//! Summaries for which a call may find no memory. The tests say more if it does:
//! `.ci/refusals` refuses each of their requests in turn.
use super::large::EVENS;
use super::*;

const EARLIER: [Entry; 2] = [(1, TWO, TWO), (0, ONE, ONE)];

const LATER: [Entry; 2] = [(2, THREE, FOUR), (1, FIVE, FIVE)];

static ADDS: [Call; 8] = [
    Call::Add(Entries::Any(&[(0, ONE, TWO)])),
    Call::Add(Entries::Any(&[(1, ONE, TWO)])),
    Call::Add(Entries::Any(&[(2, ONE, TWO)])),
    Call::Add(Entries::Any(&[(3, ONE, TWO)])),
    Call::Add(Entries::Any(&[(4, ONE, TWO)])),
    Call::Add(Entries::Any(&[(5, ONE, TWO)])),
    Call::Add(Entries::Any(&[(6, ONE, TWO)])),
    Call::Add(Entries::Any(&[(7, ONE, TWO)])),
];

/// Whether two summaries have the same entries.
fn are_alike(a: &Summary, b: &Summary) -> bool {
    for n in 0..a.count() {
        if a.get(n) != b.get(n) {
            return false;
        }
    }
    a.len() == b.len()
}

/// Whether a call is made, or a refusal leaves the entries as they were.
fn makes_or_leaves(alloc: Global, summary: &mut Summary, one: &Call) -> Result<bool, AllocError> {
    let before = summary.copy(alloc)?;
    let made = make_call(alloc, summary, one);
    Ok(made.is_ok() || are_alike(summary, &before))
}

/// That of each call, from these entries on.
fn all_make_or_leave(alloc: Global, entries: &[Entry], calls: &[Call]) -> Result<bool, AllocError> {
    let mut summary = summary_of(alloc, 64, entries)?;
    for one in calls {
        if !makes_or_leaves(alloc, &mut summary, one)? {
            return Ok(false);
        }
    }
    Ok(true)
}

#[test]
fn a_refused_add_leaves_the_entries(rt: HostRuntime) -> Result<(), Fail> {
    assert!(rt; all_make_or_leave(rt.alloc(), &[], &ADDS)?);
    Ok(())
}

#[test]
fn a_refused_union_leaves_the_entries(rt: HostRuntime) -> Result<(), Fail> {
    let calls = [Call::Union(Entries::Any(&EVENS))];
    assert!(rt; all_make_or_leave(rt.alloc(), &EARLIER, &calls)?);
    Ok(())
}

#[test]
fn a_refused_merge_leaves_the_entries(rt: HostRuntime) -> Result<(), Fail> {
    let calls = [Call::Merge(Entries::Any(&EVENS))];
    assert!(rt; all_make_or_leave(rt.alloc(), &EARLIER, &calls)?);
    Ok(())
}

#[test]
fn a_refused_sort_leaves_the_entries(rt: HostRuntime) -> Result<(), Fail> {
    assert!(rt; all_make_or_leave(rt.alloc(), &LATER, &[Call::Sort])?);
    Ok(())
}
