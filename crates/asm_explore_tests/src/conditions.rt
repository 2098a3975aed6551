//! Conditions on states, and within which states runs are looked at.
use crate::question::{ANY, Asked, Case, first_other};
use crate::texts::exclusion::{MUTEX, MUTEX_WRONG};
use crate::texts::philosophers::COUNTING;
use crate::told::{Told, Verdict};
use asm_explore::Fault;
use std::test::Fail;

/// Counts for ever.
const COUNTER: &str = "CoreASM T init M function controlled count initially 0 \
function controlled never rule M = count := count + 1";

/// Counts by 1 or by 2.
const LEAPS: &str = "CoreASM T init M universe Leap = 1 .. 2 \
function controlled count initially 0 rule M = choose i in Leap do count := count + i endchoose";

/// Nothing is looked at.
const NOTHING: Told = Told {
    verdict: Verdict::WrongFirst,
    states: 0,
    depth: 0,
    outcomes: 0,
    widest: 0,
    quiet: 0,
};

/// The first state alone.
const FIRST: Told = Told {
    verdict: Verdict::Closed,
    states: 1,
    ..NOTHING
};

static ALWAYS: [Case; 7] = [
    // The states with 0, 1 and 2.
    (
        COUNTER,
        Asked {
            always: "count < 3",
            ..ANY
        },
        Told {
            verdict: Verdict::Bad(3, Fault::Wrong),
            states: 3,
            depth: 2,
            outcomes: 3,
            widest: 1,
            quiet: 0,
        },
    ),
    // From 3, in the third step; the state with 4 isn't gone on from.
    (
        LEAPS,
        Asked {
            always: "count < 5",
            ..ANY
        },
        Told {
            verdict: Verdict::Bad(3, Fault::Wrong),
            states: 5,
            depth: 2,
            outcomes: 8,
            widest: 2,
            quiet: 0,
        },
    ),
    (
        MUTEX,
        Asked {
            always: "isSafe",
            ..ANY
        },
        Told {
            verdict: Verdict::Closed,
            states: 24,
            depth: 6,
            outcomes: 48,
            widest: 2,
            quiet: 0,
        },
    ),
    (
        MUTEX_WRONG,
        Asked {
            always: "isSafe",
            ..ANY
        },
        Told {
            verdict: Verdict::Bad(4, Fault::Wrong),
            states: 8,
            depth: 3,
            outcomes: 14,
            widest: 2,
            quiet: 0,
        },
    ),
    (
        COUNTER,
        Asked {
            always: "count > 0",
            ..ANY
        },
        NOTHING,
    ),
    // What isn't true is wrong, whatever it is.
    (
        COUNTER,
        Asked {
            always: "never",
            ..ANY
        },
        NOTHING,
    ),
    (
        COUNTER,
        Asked {
            always: "count + 1",
            ..ANY
        },
        NOTHING,
    ),
];

static WITHIN: [Case; 7] = [
    // The states from 0 to 5; the last is looked at.
    (
        COUNTER,
        Asked {
            within: "count < 5",
            ..ANY
        },
        Told {
            verdict: Verdict::Closed,
            states: 6,
            depth: 5,
            outcomes: 5,
            widest: 1,
            quiet: 0,
        },
    ),
    (
        COUNTER,
        Asked {
            always: "count <= 5",
            within: "count < 5",
            ..ANY
        },
        Told {
            verdict: Verdict::Closed,
            states: 6,
            depth: 5,
            outcomes: 5,
            widest: 1,
            quiet: 0,
        },
    ),
    (
        COUNTER,
        Asked {
            always: "count < 5",
            within: "count < 5",
            ..ANY
        },
        Told {
            verdict: Verdict::Bad(5, Fault::Wrong),
            states: 5,
            depth: 4,
            outcomes: 5,
            widest: 1,
            quiet: 0,
        },
    ),
    // From 0 to 6, by 1 or 2 from each below 5.
    (
        LEAPS,
        Asked {
            within: "count < 5",
            ..ANY
        },
        Told {
            verdict: Verdict::Closed,
            states: 7,
            depth: 3,
            outcomes: 10,
            widest: 2,
            quiet: 0,
        },
    ),
    (
        COUNTER,
        Asked {
            within: "count > 0",
            ..ANY
        },
        FIRST,
    ),
    (
        COUNTER,
        Asked {
            within: "never",
            ..ANY
        },
        FIRST,
    ),
    // Until somebody has had a meal: the states of the philosophers who don't count, and where the
    // first meal ends.
    (
        COUNTING,
        Asked {
            within: "(forall p in Philosopher holds meals(p) < 1)",
            ..ANY
        },
        Told {
            verdict: Verdict::Closed,
            states: 312,
            depth: 8,
            outcomes: 620,
            widest: 5,
            quiet: 0,
        },
    ),
];

#[test]
fn a_condition_is_looked_at_in_each_state(rt: HostRuntime) -> Result<(), Fail> {
    assert_eq!(rt; first_other(rt.alloc(), &ALWAYS)?, None);
    Ok(())
}

#[test]
fn runs_are_looked_at_within_a_condition(rt: HostRuntime) -> Result<(), Fail> {
    assert_eq!(rt; first_other(rt.alloc(), &WITHIN)?, None);
    Ok(())
}
