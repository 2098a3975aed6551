//! Quiet states: how many are listed, a run that comes to the first, and those in which a run may
//! not rest.
use crate::question::{ANY, Asked, Case, answer_to, first_other};
use crate::texts::exclusion::MUTEX;
use crate::told::{Told, Verdict};
use asm_explore::{Fault, QuietRun};
use std::alloc::Global;
use std::test::Fail;

/// Counts by 1 or by 2 as long as the count is below 3: it comes to 3 or 4, and stays there.
const LEAPS: &str = "CoreASM T init M universe Leap = 1 .. 2 \
function controlled count initially 0 \
rule M = if count < 3 then choose i in Leap do count := count + i endchoose endif";

/// Changes nothing.
const STILL: &str = "CoreASM T init M rule M = skip";

/// Writes what was there, or something else.
const SWINGING: &str = "CoreASM T init M universe Bit = 0 .. 1 \
function controlled x initially 0 rule M = choose i in Bit do x := i endchoose";

/// Writes what was there.
const WRITING: &str = "CoreASM T init M universe Bit = 0 .. 1 \
function controlled x initially 0 rule M = choose i in Bit do x := x endchoose";

/// All of the states from 0 to 4, of which 3 and 4 are quiet.
const LEAPT: Told = Told {
    verdict: Verdict::Closed,
    states: 5,
    depth: 2,
    outcomes: 8,
    widest: 2,
    quiet: 2,
};

/// One state.
const ONE: Told = Told {
    verdict: Verdict::Closed,
    states: 1,
    depth: 0,
    outcomes: 1,
    widest: 1,
    quiet: 1,
};

/// The state with 3 is the first one in which nothing happens any more, from the third step on.
const STUCK: Told = Told {
    verdict: Verdict::Bad(3, Fault::Deadlock),
    outcomes: 7,
    quiet: 0,
    ..LEAPT
};

/// A run may rest with 4 alone.
const FOUR: Asked = Asked {
    when_quiet: "count = 4",
    ..ANY
};

/// A run may rest nowhere.
const NOWHERE: Asked = Asked {
    when_quiet: "false",
    ..ANY
};

static RESTING: [Case; 12] = [
    (LEAPS, ANY, LEAPT),
    (
        LEAPS,
        Asked {
            when_quiet: "count > 2",
            ..ANY
        },
        LEAPT,
    ),
    (LEAPS, FOUR, STUCK),
    // What is neither true nor false isn't true.
    (
        LEAPS,
        Asked {
            when_quiet: "count",
            ..ANY
        },
        STUCK,
    ),
    (LEAPS, Asked { steps: 3, ..FOUR }, STUCK),
    // That nothing happens in the third step is seen at the limit of two, but not of one.
    (
        LEAPS,
        Asked { steps: 2, ..FOUR },
        Told {
            outcomes: 6,
            ..STUCK
        },
    ),
    (
        LEAPS,
        Asked { steps: 1, ..FOUR },
        Told {
            verdict: Verdict::SafeTo(1),
            states: 3,
            depth: 1,
            outcomes: 2,
            quiet: 0,
            ..LEAPT
        },
    ),
    // Runs aren't followed from the quiet states.
    (
        LEAPS,
        Asked {
            within: "count < 3",
            ..NOWHERE
        },
        Told {
            outcomes: 6,
            quiet: 0,
            ..LEAPT
        },
    ),
    (STILL, ANY, ONE),
    (
        STILL,
        NOWHERE,
        Told {
            verdict: Verdict::Bad(1, Fault::Deadlock),
            quiet: 0,
            ..ONE
        },
    ),
    // Some choice goes on from each state.
    (
        SWINGING,
        NOWHERE,
        Told {
            states: 2,
            depth: 1,
            outcomes: 4,
            widest: 2,
            quiet: 0,
            ..ONE
        },
    ),
    (
        WRITING,
        Asked {
            when_quiet: "x = 0",
            ..ANY
        },
        ONE,
    ),
];

#[test]
fn quiet_states_are_listed(rt: HostRuntime) -> Result<(), Fail> {
    assert_eq!(rt; first_other(rt.alloc(), &RESTING)?, None);
    Ok(())
}

/// A text, and the run that comes to its first quiet state: its script and its steps.
type First = (&'static str, Option<(&'static str, u64)>);

static FIRST_QUIET: [First; 3] = [
    // By 1, and then by 2.
    (LEAPS, Some(("2 0 1\n", 2))),
    (STILL, Some(("", 0))),
    (MUTEX, None),
];

/// Whether a run is that under a script of so many steps, or there is none.
fn is_run(run: &Option<QuietRun>, expected: Option<(&str, u64)>) -> bool {
    match (run, expected) {
        (None, None) => true,
        (Some(run), Some((script, steps))) => run.script.as_str() == script && run.steps == steps,
        _ => false,
    }
}

/// Whether this run comes to the first quiet state of a text.
fn comes_to_quiet(alloc: Global, text: &str, run: Option<(&str, u64)>) -> Result<bool, Fail> {
    let answered = answer_to(alloc, text, &ANY)?;
    let is_so = is_run(&answered.first_quiet, run);
    drop(answered);
    Ok(is_so)
}

/// The first text whose first quiet state another run comes to.
fn first_other_run(alloc: Global, rows: &'static [First]) -> Result<Option<&'static str>, Fail> {
    for (text, run) in rows {
        if !comes_to_quiet(alloc, text, *run)? {
            return Ok(Some(*text));
        }
    }
    Ok(None)
}

#[test]
fn a_run_comes_to_the_first_quiet_state(rt: HostRuntime) -> Result<(), Fail> {
    assert_eq!(rt; first_other_run(rt.alloc(), &FIRST_QUIET)?, None);
    Ok(())
}
