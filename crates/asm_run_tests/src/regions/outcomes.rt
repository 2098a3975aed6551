//! What rules yield when workers share their regions.
ghost use Rattle.std.specs.Prelude.{◌≡◌};
ghost use Rattle.asm_syntax.specs.code.Views.{spec_of};
ghost use Rattle.asm_check.specs.Shapes.{shape_of};

use asm_check::Checked;
use asm_eval::evaluation::Evaluation;
use asm_eval::frame::Frame;
use asm_eval::{Choices, Outcome, View};
use asm_limits::run_limits::{DEFAULTS, Limits};
use asm_pool::NoGate;
use asm_resolve::main_rule::resolve_main;
use asm_run::pooled::Pooled;
use asm_tests::beginning::Beginning;
use asm_tests::plain::{FIVE, ONE, Plain, TWO};
use asm_tests::rules::{ASKING, Counting, YIELDED, Yielded, is_exhausted, is_set, specification};
use std::alloc::{AllocError, Global};
use std::test::Fail;
use std::thread::Threads;

/// So regions are cut and shared.
static CUTTINGS: [Limits; 3] = [
    Limits {
        steps: 1,
        turns: 3,
        workers: 2,
        cut: 1,
        rounds: 1,
        ..DEFAULTS
    },
    Limits {
        steps: 1,
        turns: 3,
        workers: 3,
        cut: 2,
        rounds: 3,
        ..DEFAULTS
    },
    Limits {
        steps: 1,
        turns: 3,
        workers: 32,
        cut: 1,
        rounds: 64,
        ..DEFAULTS
    },
];

/// What the main rule yields in what the view shows: as one region, or with each of its regions
/// shared.
fn main_outcome<'a, R: Threads + Sync>(
    alloc: Global,
    pooled: &Pooled<'_, R, NoGate>,
    checked: &'a Checked,
    view: &'a View<'_>,
    choices: &'a Choices<'a, Counting>,
    turns: u32,
    is_region: bool,
) -> Result<Outcome, AllocError>
    requires { view.now.signature.now ≡ shape_of (spec_of checked.now.spec) }
{
    let code = resolve_main(alloc, checked)?;
    let evaluation = Evaluation {
        view,
        choices,
        turns,
    };
    let outcome = if is_region {
        pooled.region(alloc, &evaluation, &Frame::Empty, &code, &[])
    } else {
        pooled.outcome(alloc, &evaluation, &Frame::Empty, &code, &[])
    };
    drop(code);
    outcome
}

/// The same in the initial state.
fn outcome_by<R: Threads + Sync>(
    alloc: Global,
    pooled: &Pooled<'_, R, NoGate>,
    checked: &Checked,
    picks: &Counting,
    turns: u32,
    is_region: bool,
) -> Result<Outcome, AllocError> {
    let beginning = Beginning::of(alloc, checked)?;
    let view = beginning.view();
    let choices = Choices {
        script: picks,
        step: 1,
    };
    main_outcome(alloc, pooled, checked, &view, &choices, turns, is_region)
}

/// What a main rule with this body yields so, and how often it asks.
fn yielded<R: Threads + Sync + AllocGlobal>(
    rt: &R,
    limits: &Limits,
    body: &str,
    is_region: bool,
) -> Result<(Outcome, u64), Fail> {
    if !limits.are_in_range() {
        return Err(Fail::new("a limit is out of its range"));
    }
    let alloc = rt.alloc();
    let checked = specification(alloc, body)?;
    let picks = Counting::new();
    let pooled = Pooled::new(rt, limits, &NoGate);
    let outcome = outcome_by(alloc, &pooled, &checked, &picks, limits.turns, is_region);
    drop(checked);
    Ok((outcome?, picks.times()))
}

/// Whether workers that share so yield the set with these instances and entries, and ask so often.
fn yields<R: Threads + Sync + AllocGlobal>(
    rt: &R,
    limits: &Limits,
    row: &Yielded,
    is_region: bool,
) -> Result<bool, Fail> {
    let (body, times, instances, entries) = row;
    let (outcome, asked) = yielded(rt, limits, body, is_region)?;
    Ok(asked == *times && is_set(outcome, *instances, entries))
}

#[test]
fn workers_yield_what_one_thread_does(rt: HostRuntime) -> Result<(), Fail> {
    for limits in &CUTTINGS {
        for row in &YIELDED {
            assert!(rt; yields(&rt, limits, row, false)?, "{limits:?}");
        }
    }
    Ok(())
}

#[test]
fn workers_ask_each_question_once(rt: HostRuntime) -> Result<(), Fail> {
    for (body, times) in &ASKING {
        let (_outcome, asked) = yielded(&rt, &CUTTINGS[1], body, false)?;
        assert!(rt; asked == *times, "{body}");
    }
    Ok(())
}

/// Rules with regions after others and within others, and with updates of pieces that clash.
static SHARED: [Yielded; 8] = [
    // A region beneath a sequence that is within a region: a worker forms it whole.
    (
        "par seq x := 2 forall i in Idx do c(i) := x endforall endseq skip endpar",
        0,
        3,
        &[(0, TWO, TWO), (1, TWO, TWO), (2, TWO, TWO), (4, TWO, TWO)],
    ),
    // Regions that come after others, and see what those yield.
    (
        "seq x := 1 if x = 1 then forall i in Idx with i >= x do c(i) := i endforall endif endseq",
        0,
        2,
        &[(1, ONE, ONE), (2, TWO, TWO), (4, ONE, ONE)],
    ),
    (
        "seq forall i in Idx do c(i) := i endforall par x := c(2) c(0) := 5 endpar endseq",
        0,
        3,
        &[(0, FIVE, FIVE), (1, ONE, ONE), (2, TWO, TWO), (4, TWO, TWO)],
    ),
    (
        "seq x := 0 iterate if x < 2 then par x := x + 1 \
forall i in Idx with i <= x do c(i) := x + 1 endforall endpar endif enditerate endseq",
        0,
        3,
        &[(0, TWO, TWO), (1, TWO, TWO), (4, TWO, TWO)],
    ),
    (
        "choose k in Idx with k > 0 do par c(k) := k x := k endpar endchoose",
        1,
        0,
        &[(1, ONE, ONE), (4, ONE, ONE)],
    ),
    // Updates that clash, of pieces beside each other. A sequence ends with them.
    ("par x := 2 x := 1 endpar", 0, 0, &[(4, ONE, TWO)]),
    (
        "forall i in Idx do x := i endforall",
        0,
        3,
        &[(4, Plain::Number(0), TWO)],
    ),
    (
        "seq par x := 1 x := 2 endpar forall i in Idx do c(i) := i endforall endseq",
        0,
        0,
        &[(4, ONE, TWO)],
    ),
];

#[test]
fn regions_are_shared_behind_others_and_within_them(rt: HostRuntime) -> Result<(), Fail> {
    for limits in &CUTTINGS {
        for row in &SHARED {
            assert!(rt; yields(&rt, limits, row, false)?, "{limits:?}");
        }
    }
    Ok(())
}

#[test]
fn each_rule_is_worked_as_one_region(rt: HostRuntime) -> Result<(), Fail> {
    for limits in &CUTTINGS {
        for row in &SHARED {
            assert!(rt; yields(&rt, limits, row, true)?, "{limits:?}");
        }
    }
    Ok(())
}

/// Bodies, and the path at which each is exhausted: the least one, wherever the others are. If
/// work is cut in several rounds, the deeper ones are met later.
static EXHAUSTED: [(&str, &[u64]); 5] = [
    (
        "par par iterate x := 1 enditerate endpar iterate x := 2 enditerate endpar",
        &[0, 0],
    ),
    (
        "forall i in Idx do if i = 2 then iterate x := 1 enditerate \
else par par iterate x := 2 enditerate endpar endpar endif endforall",
        &[0, 1, 0, 0],
    ),
    (
        "forall i in Idx with i > 0 do par iterate c(i) := 1 enditerate endpar endforall",
        &[1, 0],
    ),
    (
        "par par x := 1 x := 2 endpar iterate x := 1 enditerate endpar",
        &[1],
    ),
    (
        "seq x := 0 par skip par iterate x := x + 1 enditerate endpar iterate x := 0 enditerate endpar endseq",
        &[1, 1, 0],
    ),
];

#[test]
fn the_least_exhausted_path_is_answered(rt: HostRuntime) -> Result<(), Fail> {
    for limits in &CUTTINGS {
        for (body, path) in &EXHAUSTED {
            let (outcome, _asked) = yielded(&rt, limits, body, false)?;
            assert!(rt; is_exhausted(outcome, path), "{body}");
        }
    }
    Ok(())
}
