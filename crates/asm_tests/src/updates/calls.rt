//! What calls leave in a set.
use super::large::{EIGHTS, EVENS, MERGED, RISING, SEVENS, THIRDS, UNITED};
use super::*;

const EARLIER: [Entry; 2] = [(1, TWO, TWO), (0, ONE, ONE)];

const LATER: [Entry; 2] = [(2, THREE, FOUR), (1, FIVE, FIVE)];

/// The first has two values, and the second is the stray one of a function.
const FAULTY: [Entry; 2] = [(5, ONE, TWO), (4, ONE, ONE)];

/// How many locations there are, calls, and the entries that they leave: in this order, if the last
/// call is that which sorts.
type Case = (usize, &'static [Call], &'static [Entry]);

static CASES: [Case; 10] = [
    (64, &[Call::Add(Entries::Any(&LATER))], &LATER),
    (7, &[Call::Add(Entries::Any(&FAULTY))], &FAULTY),
    // The later set overrides the earlier one.
    (
        64,
        &[
            Call::Add(Entries::Any(&EARLIER)),
            Call::Merge(Entries::Any(&LATER)),
        ],
        &[(0, ONE, ONE), (1, FIVE, FIVE), (2, THREE, FOUR)],
    ),
    // A union has the values of both sets.
    (
        64,
        &[
            Call::Add(Entries::Any(&EARLIER)),
            Call::Union(Entries::Any(&LATER)),
        ],
        &[(0, ONE, ONE), (1, TWO, FIVE), (2, THREE, FOUR)],
    ),
    (
        64,
        &[
            Call::Add(Entries::Any(&LATER)),
            Call::Union(Entries::Any(&EARLIER)),
            Call::Sort,
        ],
        &[(0, ONE, ONE), (1, TWO, FIVE), (2, THREE, FOUR)],
    ),
    (
        64,
        &[
            Call::Add(Entries::Any(&EVENS)),
            Call::Union(Entries::Any(&THIRDS)),
        ],
        &UNITED,
    ),
    (
        64,
        &[
            Call::Add(Entries::Any(&EVENS)),
            Call::Merge(Entries::Any(&THIRDS)),
        ],
        &MERGED,
    ),
    // A cleared set serves again.
    (8192, &[Call::Add(Entries::Any(&SEVENS))], &SEVENS),
    (8192, &[Call::Add(Entries::Any(&SEVENS)), Call::Clear], &[]),
    (
        8192,
        &[
            Call::Add(Entries::Any(&SEVENS)),
            Call::Clear,
            Call::Add(Entries::Any(&EIGHTS)),
            Call::Sort,
        ],
        &RISING,
    ),
];

/// Whether the entries of a set are in this order.
fn has_in_order(summary: &Summary, entries: &[Entry]) -> bool {
    if summary.len() != entries.len() {
        return false;
    }
    for (i, (n, low, high)) in entries.iter().enumerate() {
        if summary.entry_at(i) != (*n, value(*low), value(*high)) {
            return false;
        }
    }
    true
}

/// Whether a set has these entries, and a copy of it still has them once the set is cleared.
fn has_and_keeps(
    alloc: Global,
    mut summary: Summary,
    entries: &[Entry],
) -> Result<bool, AllocError> {
    let copy = summary.copy(alloc)?;
    let is_right = has_just(&summary, entries) && summary.is_empty() == entries.is_empty();
    summary.clear();
    Ok(
        is_right
            && summary.is_empty()
            && copy.is_empty() == entries.is_empty()
            && has_just(&copy, entries),
    )
}

/// Whether calls leave these entries, and in this order, if the last of them sorts.
fn leaves(alloc: Global, case: &Case) -> Result<bool, AllocError> {
    let (count, calls, entries) = case;
    let summary = left_by(alloc, *count, calls)?;
    if matches!(calls.last(), Some(Call::Sort)) && !has_in_order(&summary, entries) {
        return Ok(false);
    }
    has_and_keeps(alloc, summary, entries)
}

#[test]
fn calls_leave_their_entries(rt: HostRuntime) -> Result<(), Fail> {
    for (i, case) in CASES.iter().enumerate() {
        assert!(rt; leaves(rt.alloc(), case)?, "{i}");
    }
    Ok(())
}
