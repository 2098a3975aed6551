//! What is found of whole specifications.
use crate::question::{ANY, Asked, Case, first_other};
use crate::texts::agreement::{COMMIT, ELECTION};
use crate::texts::alternating::{ALTERNATING, ALTERNATING_WRONG};
use crate::texts::exclusion::{MUTEX, MUTEX_WRONG};
use crate::texts::lift::LIFT;
use crate::texts::philosophers::{COUNTING, PHILOSOPHERS};
use crate::texts::stack::STACK_WRONG;
use crate::texts::termination::{TERMINATION, TERMINATION_WRONG};
use crate::texts::voting::VOTING;
use crate::texts::window::WINDOW;
use crate::told::{Told, Verdict};
use asm_explore::Fault;
use std::test::Fail;

static CLOSED: [Case; 8] = [
    (
        MUTEX,
        ANY,
        Told {
            verdict: Verdict::Closed,
            states: 24,
            depth: 6,
            outcomes: 48,
            widest: 2,
            quiet: 0,
        },
    ),
    (
        ALTERNATING,
        ANY,
        Told {
            verdict: Verdict::Closed,
            states: 21,
            depth: 9,
            outcomes: 69,
            widest: 4,
            quiet: 1,
        },
    ),
    (
        COMMIT,
        ANY,
        Told {
            verdict: Verdict::Closed,
            states: 589,
            depth: 11,
            outcomes: 1582,
            widest: 10,
            quiet: 178,
        },
    ),
    (
        TERMINATION,
        ANY,
        Told {
            verdict: Verdict::Closed,
            states: 927,
            depth: 17,
            outcomes: 8096,
            widest: 14,
            quiet: 1,
        },
    ),
    (
        ELECTION,
        ANY,
        Told {
            verdict: Verdict::Closed,
            states: 8,
            depth: 7,
            outcomes: 8,
            widest: 1,
            quiet: 1,
        },
    ),
    (
        PHILOSOPHERS,
        ANY,
        Told {
            verdict: Verdict::Closed,
            states: 152,
            depth: 7,
            outcomes: 620,
            widest: 5,
            quiet: 0,
        },
    ),
    // Its first step may change nothing.
    (
        LIFT,
        ANY,
        Told {
            verdict: Verdict::Closed,
            states: 480,
            depth: 10,
            outcomes: 3380,
            widest: 8,
            quiet: 0,
        },
    ),
    (
        WINDOW,
        ANY,
        Told {
            verdict: Verdict::Closed,
            states: 101,
            depth: 8,
            outcomes: 260,
            widest: 5,
            quiet: 1,
        },
    ),
];

static BAD: [Case; 4] = [
    (
        MUTEX_WRONG,
        ANY,
        Told {
            verdict: Verdict::Bad(5, Fault::Inconsistent),
            states: 9,
            depth: 4,
            outcomes: 18,
            widest: 2,
            quiet: 0,
        },
    ),
    (
        ALTERNATING_WRONG,
        ANY,
        Told {
            verdict: Verdict::Bad(5, Fault::Inconsistent),
            states: 14,
            depth: 5,
            outcomes: 33,
            widest: 4,
            quiet: 0,
        },
    ),
    (
        TERMINATION_WRONG,
        ANY,
        Told {
            verdict: Verdict::Bad(14, Fault::Inconsistent),
            states: 917,
            depth: 13,
            outcomes: 7587,
            widest: 14,
            quiet: 1,
        },
    ),
    (
        STACK_WRONG,
        ANY,
        Told {
            verdict: Verdict::Bad(8, Fault::Inconsistent),
            states: 315,
            depth: 8,
            outcomes: 556,
            widest: 5,
            quiet: 0,
        },
    ),
];

/// Philosophers who count their meals.
static TWENTY_STEPS: [Case; 1] = [(
    COUNTING,
    Asked { steps: 20, ..ANY },
    Told {
        verdict: Verdict::SafeTo(20),
        states: 39_564,
        depth: 20,
        outcomes: 136_710,
        widest: 5,
        quiet: 0,
    },
)];

static VOTES: [Case; 1] = [(
    VOTING,
    ANY,
    Told {
        verdict: Verdict::Closed,
        states: 40_029,
        depth: 16,
        outcomes: 235_383,
        widest: 10,
        quiet: 958,
    },
)];

#[test]
fn specifications_are_closed(rt: HostRuntime) -> Result<(), Fail> {
    assert_eq!(rt; first_other(rt.alloc(), &CLOSED)?, None);
    Ok(())
}

#[test]
fn faults_are_found_in_the_least_step(rt: HostRuntime) -> Result<(), Fail> {
    assert_eq!(rt; first_other(rt.alloc(), &BAD)?, None);
    Ok(())
}

#[test]
fn philosophers_who_count_are_safe_for_twenty_steps(rt: HostRuntime) -> Result<(), Fail> {
    assert_eq!(rt; first_other(rt.alloc(), &TWENTY_STEPS)?, None);
    Ok(())
}

#[test]
fn nodes_who_vote_are_closed(rt: HostRuntime) -> Result<(), Fail> {
    assert_eq!(rt; first_other(rt.alloc(), &VOTES)?, None);
    Ok(())
}
