//! How far it is looked, and why it is given up.
use crate::question::{ANY, Asked, Case, answer_to, first_other, joined, told_of};
use crate::texts::exclusion::{MUTEX, MUTEX_WRONG};
use crate::told::{Told, Verdict};
use asm_explore::{Fault, Finding, RuleOverLimit};
use std::alloc::{AllocError, Global};
use std::test::Fail;

/// Counts for ever.
const COUNTER: &str =
    "CoreASM T init M function controlled count initially 0 rule M = count := count + 1";

static STEPS: [Case; 6] = [
    (
        COUNTER,
        Asked { steps: 0, ..ANY },
        Told {
            verdict: Verdict::SafeTo(0),
            states: 1,
            depth: 0,
            outcomes: 0,
            widest: 0,
            quiet: 0,
        },
    ),
    (
        COUNTER,
        Asked { steps: 10, ..ANY },
        Told {
            verdict: Verdict::SafeTo(10),
            states: 11,
            depth: 10,
            outcomes: 10,
            widest: 1,
            quiet: 0,
        },
    ),
    // Two states are reached by six steps, and have two outcomes each.
    (
        MUTEX,
        Asked { steps: 6, ..ANY },
        Told {
            verdict: Verdict::SafeTo(6),
            states: 24,
            depth: 6,
            outcomes: 44,
            widest: 2,
            quiet: 0,
        },
    ),
    (
        MUTEX,
        Asked { steps: 7, ..ANY },
        Told {
            verdict: Verdict::Closed,
            states: 24,
            depth: 6,
            outcomes: 48,
            widest: 2,
            quiet: 0,
        },
    ),
    (
        MUTEX_WRONG,
        Asked { steps: 4, ..ANY },
        Told {
            verdict: Verdict::SafeTo(4),
            states: 9,
            depth: 4,
            outcomes: 16,
            widest: 2,
            quiet: 0,
        },
    ),
    (
        MUTEX_WRONG,
        Asked { steps: 5, ..ANY },
        Told {
            verdict: Verdict::Bad(5, Fault::Inconsistent),
            states: 9,
            depth: 4,
            outcomes: 18,
            widest: 2,
            quiet: 0,
        },
    ),
];

static STATES: [Case; 4] = [
    (
        COUNTER,
        Asked { states: 1, ..ANY },
        Told {
            verdict: Verdict::TooManyStates(Some(0)),
            states: 1,
            depth: 0,
            outcomes: 1,
            widest: 1,
            quiet: 0,
        },
    ),
    (
        COUNTER,
        Asked { states: 10, ..ANY },
        Told {
            verdict: Verdict::TooManyStates(Some(9)),
            states: 10,
            depth: 9,
            outcomes: 10,
            widest: 1,
            quiet: 0,
        },
    ),
    // The last of the two that are reached by six steps is one too many.
    (
        MUTEX,
        Asked { states: 23, ..ANY },
        Told {
            verdict: Verdict::TooManyStates(Some(5)),
            states: 23,
            depth: 6,
            outcomes: 42,
            widest: 2,
            quiet: 0,
        },
    ),
    (
        MUTEX,
        Asked { states: 24, ..ANY },
        Told {
            verdict: Verdict::Closed,
            states: 24,
            depth: 6,
            outcomes: 48,
            widest: 2,
            quiet: 0,
        },
    ),
];

#[test]
fn runs_are_looked_at_up_to_their_steps(rt: HostRuntime) -> Result<(), Fail> {
    assert_eq!(rt; first_other(rt.alloc(), &STEPS)?, None);
    Ok(())
}

#[test]
fn no_more_states_are_reached(rt: HostRuntime) -> Result<(), Fail> {
    assert_eq!(rt; first_other(rt.alloc(), &STATES)?, None);
    Ok(())
}

/// What is before the main rule's body.
const BEFORE: &str = "CoreASM T init M universe Many = 1 .. 4096 universe Few = 0 .. 2 \
universe Bit = 0 .. 1 function controlled f : Many function controlled x initially 0 \
function controlled y rule M = ";

/// A rule with too many outcomes.
struct Crowded {
    body: &'static str,
    /// This many may be listed.
    limit: usize,
    /// It is safe up to this many steps.
    safe: u32,
    path: &'static [u64],
    /// This many has a part or a candidate.
    first: usize,
    /// This many have those that are beside it, or are listed so far.
    others: usize,
}

static TOO_MANY: [Crowded; 8] = [
    // From the last element to the first, each has two times as many.
    Crowded {
        body: "forall i in Many do choose j in Bit do f(i) := j endchoose endforall",
        limit: 1000,
        safe: 0,
        path: &[],
        first: 2,
        others: 512,
    },
    Crowded {
        body: "par x := 1 let v = 2 in \
forall i in Many do choose j in Few do f(i) := j + v endchoose endforall endlet endpar",
        limit: 1000,
        safe: 0,
        path: &[1, 0],
        first: 3,
        others: 729,
    },
    Crowded {
        body: "par choose i in Few do x := i endchoose choose j in Bit do y := j endchoose endpar",
        limit: 5,
        safe: 0,
        path: &[],
        first: 3,
        others: 2,
    },
    Crowded {
        body: "choose i in Few do x := i endchoose",
        limit: 2,
        safe: 0,
        path: &[],
        first: 1,
        others: 2,
    },
    Crowded {
        body: "seq choose i in Few do x := i endchoose choose i in Few do y := i endchoose endseq",
        limit: 8,
        safe: 0,
        path: &[],
        first: 3,
        others: 6,
    },
    // The second part ends the sequence: each of its sets gives `y` two values.
    Crowded {
        body: "seq choose i in Few do x := i endchoose \
choose i in Few do par y := i y := 3 endpar endchoose endseq",
        limit: 8,
        safe: 0,
        path: &[],
        first: 3,
        others: 6,
    },
    // After the first turn 0, 1 and 2 go on; after the second, from 0 and 1, 0 to 3.
    Crowded {
        body: "iterate choose i in Few do x := x + i endchoose enditerate",
        limit: 4,
        safe: 0,
        path: &[],
        first: 3,
        others: 4,
    },
    // The second step has them.
    Crowded {
        body: "if x = 0 then x := 1 else choose i in Few do y := i endchoose endif",
        limit: 2,
        safe: 1,
        path: &[1],
        first: 1,
        others: 2,
    },
];

/// Whether both have the same numbers.
fn are_same(left: &[u64], right: &[u64]) -> bool {
    left == right
}

/// Whether a rule has too many outcomes as the row says.
fn is_crowd(crowd: &RuleOverLimit, row: &Crowded) -> bool {
    are_same(crowd.path.as_slice(), row.path)
        && crowd.first == row.first
        && crowd.others == row.others
}

/// Whether too many outcomes are found as the row says.
fn finds_crowd(finding: &Finding, row: &Crowded) -> bool {
    match finding {
        Finding::TooManyOutcomes { safe, crowd } => *safe == Some(row.safe) && is_crowd(crowd, row),
        _ => false,
    }
}

/// Whether there are too many outcomes as the row says.
fn is_crowded(alloc: Global, row: &Crowded) -> Result<bool, Fail> {
    let text = joined(alloc, BEFORE, row.body)?;
    let asked = Asked {
        outcomes: row.limit,
        ..ANY
    };
    let answered = answer_to(alloc, text.as_str(), &asked)?;
    let is_so = finds_crowd(&answered.finding, row);
    drop(answered);
    Ok(is_so)
}

/// The first rule that hasn't.
fn first_uncrowded(alloc: Global, rows: &'static [Crowded]) -> Result<Option<&'static str>, Fail> {
    for row in rows {
        if !is_crowded(alloc, row)? {
            return Ok(Some(row.body));
        }
    }
    Ok(None)
}

#[test]
fn too_many_outcomes_are_told_by_their_rule(rt: HostRuntime) -> Result<(), Fail> {
    assert_eq!(rt; first_uncrowded(rt.alloc(), &TOO_MANY)?, None);
    Ok(())
}

/// Three outcomes in each state.
const THREE: &str = "CoreASM T init M universe Many = 1 .. 4096 universe Few = 0 .. 2 \
function controlled f : Many function controlled x initially 0 \
rule M = choose i in Few do x := i endchoose";

static LISTED: [Case; 1] = [(
    THREE,
    Asked { outcomes: 3, ..ANY },
    Told {
        verdict: Verdict::Closed,
        states: 3,
        depth: 1,
        outcomes: 9,
        widest: 3,
        quiet: 0,
    },
)];

#[test]
fn as_many_outcomes_as_may_be_are_listed(rt: HostRuntime) -> Result<(), Fail> {
    assert_eq!(rt; first_other(rt.alloc(), &LISTED)?, None);
    Ok(())
}

/// Turns without an end, beside many locations.
const TURNING: &str = "CoreASM T init M universe Many = 1 .. 4096 function controlled f : Many \
function controlled x initially 0 rule M = iterate x := x + 1 enditerate";

static TURNS: [Case; 1] = [(
    TURNING,
    Asked {
        turns: 1_000_000,
        ..ANY
    },
    Told {
        verdict: Verdict::Bad(1, Fault::Exhausted),
        states: 1,
        depth: 0,
        outcomes: 1,
        widest: 1,
        quiet: 0,
    },
)];

#[test]
fn a_million_turns_are_exhausted(rt: HostRuntime) -> Result<(), Fail> {
    assert_eq!(rt; first_other(rt.alloc(), &TURNS)?, None);
    Ok(())
}

/// What is before a rule below fifty others.
const BEFORE_DEEP: &str = "CoreASM T init M universe Bit = 0 .. 1 \
function controlled x initially 0 rule M = ";

/// A choice of the second candidate in each step counts it, below fifty rules.
fn deep(alloc: Global) -> Result<String, AllocError> {
    let mut text = joined(alloc, BEFORE_DEEP, "")?;
    for _ in 0..50 {
        text.push_str("par ")?;
    }
    text.push_str("choose i in Bit do x := x + i endchoose")?;
    for _ in 0..50 {
        text.push_str(" endpar")?;
    }
    Ok(text)
}

/// What is found if a number of counted steps is wrong.
fn found_of_deep(alloc: Global, always: &'static str) -> Result<Verdict, Fail> {
    let text = deep(alloc)?;
    let told = told_of(alloc, text.as_str(), &Asked { always, ..ANY });
    drop(text);
    Ok(told?.verdict)
}

/// A condition on the counted steps, and what is found.
type Deep = (&'static str, Verdict);

/// Each line of a script has a step, a path of 99 bytes, and a number. So 9,900 lines have more
/// bytes than a script may have, and 9,000 have fewer.
static DEEP: [Deep; 2] = [
    ("x < 9900", Verdict::Unwritten(9900, Fault::Wrong)),
    ("x < 9000", Verdict::Bad(9000, Fault::Wrong)),
];

/// The first condition for which something else is found, and that.
fn first_other_of_deep(
    alloc: Global,
    rows: &'static [Deep],
) -> Result<Option<(&'static str, Verdict)>, Fail> {
    for (always, expected) in rows {
        let found = found_of_deep(alloc, always)?;
        if found != *expected {
            return Ok(Some((*always, found)));
        }
    }
    Ok(None)
}

#[test]
fn a_script_that_is_too_long_is_not_written(rt: HostRuntime) -> Result<(), Fail> {
    assert_eq!(rt; first_other_of_deep(rt.alloc(), &DEEP)?, None);
    Ok(())
}
