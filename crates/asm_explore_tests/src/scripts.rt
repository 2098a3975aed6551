//! Scripts that are found, and the runs under them.
use crate::question::{ANY, Asked, answer_to};
use crate::texts::alternating::ALTERNATING_WRONG;
use crate::texts::exclusion::MUTEX_WRONG;
use crate::texts::stack::STACK_WRONG;
use crate::texts::termination::TERMINATION_WRONG;
use asm_explore::{BadRun, ExplorationResult, Finding};
use asm_limits::run_limits::{DEFAULTS, Limits};
use asm_run::end::EndKind;
use asm_run::error::RunError;
use asm_run::run::run;
use asm_run::through::Through;
use std::alloc::Global;
use std::test::Fail;
use std::thread::Threads;

/// The sum of what is chosen goes out of the domain of `f`: in two steps to 3 at least, and then
/// that is its argument.
const OUTSIDE: &str = "CoreASM T init M universe Few = 0 .. 2 \
function controlled f : Few function controlled sum initially 0 \
rule M = choose i in Few do par sum := sum + i f(sum) := 1 endpar endchoose";

/// The `iterate` has no end if 2 was chosen, and is chosen again.
const EXHAUSTED: &str = "CoreASM T init M universe Few = 0 .. 2 function controlled n initially 0 \
rule M = choose i in Few do \
if i = 2 and n = 2 then iterate n := n + 1 enditerate else n := i endif endchoose";

/// A text, what is asked about it, and how the run under the script ends that is found.
type Case = (&'static str, Asked, EndKind);

/// What leads both processes into the critical section.
const BOTH: Asked = Asked {
    always: "not (stage(0) = critical and stage(1) = critical)",
    ..ANY
};

/// Counts by 1 or by 2 as long as the count is below 3.
const LEAPS: &str = "CoreASM T init M universe Leap = 1 .. 2 \
function controlled count initially 0 \
rule M = if count < 3 then choose i in Leap do count := count + i endchoose endif";

/// A run that comes to 3 is stuck.
const FOUR: Asked = Asked {
    when_quiet: "count = 4",
    ..ANY
};

static SCRIPTS: [Case; 8] = [
    (MUTEX_WRONG, ANY, EndKind::Clash),
    (ALTERNATING_WRONG, ANY, EndKind::Clash),
    (TERMINATION_WRONG, ANY, EndKind::Clash),
    (STACK_WRONG, ANY, EndKind::Clash),
    (OUTSIDE, ANY, EndKind::Outside),
    (EXHAUSTED, ANY, EndKind::Exhausted),
    (MUTEX_WRONG, BOTH, EndKind::Limit),
    (LEAPS, FOUR, EndKind::Limit),
];

/// The run that is found.
fn found_run(alloc: Global, text: &str, asked: &Asked) -> Result<BadRun, Fail> {
    let answered = answer_to(alloc, text, asked)?;
    let ExplorationResult { finding, .. } = answered;
    match finding {
        Finding::BadStep(bad) => Ok(bad),
        other => {
            drop(other);
            Err(Fail::new("no run goes wrong"))
        }
    }
}

/// How the run of `steps` steps under a script ends, and its trace.
fn run_under<R: Threads + Sync + AllocGlobal>(
    rt: &R,
    text: &str,
    script: &str,
    steps: u32,
) -> Result<(EndKind, Vec<u8>), RunError> {
    let limits = Limits {
        steps,
        turns: ANY.turns,
        ..DEFAULTS
    };
    let mut out = Through::new(Vec::new(rt.alloc()));
    let (text, script) = (text.as_bytes(), script.as_bytes());
    let end = run(rt, rt.alloc(), text, script, &limits, &mut out)?;
    Ok((end.kind(), out.into_inner()))
}

/// How the runs under a found script end: of its steps, and of one less.
fn ends_of<R: Threads + Sync + AllocGlobal>(
    rt: &R,
    text: &str,
    bad: &BadRun,
) -> Result<(EndKind, EndKind), Fail> {
    let Ok(steps) = u32::try_from(bad.step) else {
        return Err(Fail::new("it has too many steps"));
    };
    let (last, _) = run_under(rt, text, bad.script.as_str(), steps)?;
    let (before, _) = run_under(rt, text, bad.script.as_str(), steps.saturating_sub(1))?;
    Ok((last, before))
}

/// How those under the script that is found for a text end.
fn ends<R: Threads + Sync + AllocGlobal>(
    rt: &R,
    text: &str,
    asked: &Asked,
) -> Result<(EndKind, EndKind), Fail> {
    let bad = found_run(rt.alloc(), text, asked)?;
    let ended = ends_of(rt, text, &bad);
    drop(bad);
    ended
}

/// The first text whose runs end otherwise.
fn first_other<R: Threads + Sync + AllocGlobal>(
    rt: &R,
    rows: &'static [Case],
) -> Result<Option<&'static str>, Fail> {
    for (text, asked, end) in rows {
        if ends(rt, text, asked)? != (*end, EndKind::Limit) {
            return Ok(Some(*text));
        }
    }
    Ok(None)
}

#[test]
fn found_scripts_lead_to_faults(rt: HostRuntime) -> Result<(), Fail> {
    assert_eq!(rt; first_other(&rt, &SCRIPTS)?, None);
    Ok(())
}

/// The state in which both are critical, as traces show it.
const BOTH_CRITICAL: &[u8] = b"end limit\nstate\nstage(0) = critical\nstage(1) = critical\n\
flag(0) = true\nflag(1) = true\n";

/// The end of a trace whose last step changes nothing, and in which nothing can change any more.
const STUCK_AT_3: &[u8] = b"end limit\nstate\ncount = 3\n";

/// A text, what is asked about it, the step that goes wrong, an end of traces, and whether the
/// traces of so many steps have it.
struct Leading {
    text: &'static str,
    asked: Asked,
    step: u64,
    end: &'static [u8],
    traces: &'static [(u32, bool)],
}

static LEADING: [Leading; 2] = [
    Leading {
        text: LEAPS,
        asked: FOUR,
        step: 3,
        end: STUCK_AT_3,
        traces: &[(1, false), (2, true), (3, true), (4, true)],
    },
    Leading {
        text: MUTEX_WRONG,
        asked: BOTH,
        step: 4,
        end: BOTH_CRITICAL,
        traces: &[(3, false), (4, true)],
    },
];

/// Whether the run of `steps` steps under a script has a trace with this end.
fn ends_so<R: Threads + Sync + AllocGlobal>(
    rt: &R,
    row: &Leading,
    script: &str,
    steps: u32,
) -> Result<bool, RunError> {
    let (_, trace) = run_under(rt, row.text, script, steps)?;
    Ok(trace.as_slice().ends_with(row.end))
}

/// Whether a found script leads as the row says.
fn leads<R: Threads + Sync + AllocGlobal>(
    rt: &R,
    row: &Leading,
    bad: &BadRun,
) -> Result<bool, RunError> {
    for (steps, has_end) in row.traces {
        if ends_so(rt, row, bad.script.as_str(), *steps)? != *has_end {
            return Ok(false);
        }
    }
    Ok(bad.step == row.step)
}

/// Whether the script that is found does.
fn is_led<R: Threads + Sync + AllocGlobal>(rt: &R, row: &Leading) -> Result<bool, Fail> {
    let bad = found_run(rt.alloc(), row.text, &row.asked)?;
    let is_so = leads(rt, row, &bad);
    drop(bad);
    Ok(is_so?)
}

/// The first text whose script leads elsewhere.
fn first_misled<R: Threads + Sync + AllocGlobal>(
    rt: &R,
    rows: &'static [Leading],
) -> Result<Option<&'static str>, Fail> {
    for row in rows {
        if !is_led(rt, row)? {
            return Ok(Some(row.text));
        }
    }
    Ok(None)
}

#[test]
fn found_scripts_lead_to_a_deadlock_and_a_wrong_state(rt: HostRuntime) -> Result<(), Fail> {
    assert_eq!(rt; first_misled(&rt, &LEADING)?, None);
    Ok(())
}
