//! A region that comes to what was formed before.
ghost use Rattle.std.specs.Prelude.{◌≡◌, IfOk};
ghost use Rattle.asm_state.specs.Signature.{count_of};
ghost use Rattle.asm_syntax.specs.code.Views.{spec_of};
ghost use Rattle.asm_check.specs.Shapes.{shape_of};

use asm_check::Checked;
use asm_eval::evaluation::Evaluation;
use asm_eval::frame::Frame;
use asm_eval::{Choices, Forming, Stopped, View};
use asm_limits::run_limits::{DEFAULTS, Limits};
use asm_pool::NoGate;
use asm_resolve::main_rule::resolve_main;
use asm_run::pooled::Pooled;
use asm_tests::beginning::Beginning;
use asm_tests::plain::{Entry, FIVE, ONE, THREE, TWO, has_entries, summary_of};
use asm_tests::rules::{Counting, specification};
use std::alloc::{AllocError, Global};
use std::test::Fail;
use std::thread::Threads;

const LIMITS: Limits = Limits {
    steps: 1,
    turns: 3,
    workers: 2,
    cut: 1,
    rounds: 1,
    ..DEFAULTS
};

/// Two locations, one of which the region names too.
const BEFORE: [Entry; 2] = [(0, TWO, TWO), (4, FIVE, FIVE)];

/// A region of three instances.
const REGION: &str = "forall i in Idx do c(i) := i + 1 endforall";

/// Both.
const UNION: [Entry; 4] = [
    (0, ONE, TWO),
    (1, TWO, TWO),
    (2, THREE, THREE),
    (4, FIVE, FIVE),
];

/// What the region that is the main rule comes to after what was formed.
fn formed<'a, R: Threads + Sync>(
    alloc: Global,
    pooled: &Pooled<'_, R, NoGate>,
    checked: &'a Checked,
    view: &'a View<'_>,
    choices: &'a Choices<'a, Counting>,
    mut forming: Forming,
) -> Result<Forming, Stopped>
    requires view { view.now.signature.now ≡ shape_of (spec_of checked.now.spec) }
    requires before { forming.set.count ≡ count_of view.now.signature.now }
{
    let code = resolve_main(alloc, checked)?;
    let evaluation = Evaluation {
        view,
        choices,
        turns: 3,
    };
    let formed = pooled.form(alloc, &evaluation, &Frame::Empty, &code, &mut forming);
    drop(code);
    formed?;
    Ok(forming)
}

/// A set, and one instance less than can be counted.
fn before(alloc: Global, count: usize) -> Result<Forming, AllocError>
    ensures { IfOk result (λ made. made.set.count ≡ count) }
{
    Ok(Forming {
        set: summary_of(alloc, count, &BEFORE)?,
        instances: 18_446_744_073_709_551_614,
        path: Vec::new(alloc),
        spare: Vec::new(alloc),
    })
}

/// What that region comes to in the initial state, by two workers, with a set before.
fn formed_by_two<R: Threads + Sync + AllocGlobal>(rt: &R) -> Result<Forming, Fail> {
    let checked = specification(rt.alloc(), REGION)?;
    let made = formed_initially(rt, &checked);
    drop(checked);
    made
}

/// That of a specification whose main rule is that region.
fn formed_initially<R: Threads + Sync + AllocGlobal>(
    rt: &R,
    checked: &Checked,
) -> Result<Forming, Fail> {
    let limits = LIMITS;
    if !limits.are_in_range() {
        return Err(Fail::new("a limit is out of its range"));
    }
    let alloc = rt.alloc();
    let beginning = Beginning::of(alloc, checked)?;
    let view = beginning.view();
    let before = before(alloc, view.signature.count())?;
    let picks = Counting::new();
    let choices = Choices {
        script: &picks,
        step: 1,
    };
    let pooled = Pooled::new(rt, &limits, &NoGate);
    match formed(alloc, &pooled, checked, &view, &choices, before) {
        Ok(made) => Ok(made),
        Err(_) => Err(Fail::new("the region is exhausted, or memory ran out")),
    }
}

#[test]
fn a_region_comes_to_what_was_formed(rt: HostRuntime) -> Result<(), Fail> {
    let forming = formed_by_two(&rt)?;
    assert!(rt; has_entries(&forming.set, &UNION));
    assert!(rt; forming.instances == u64::MAX);
    assert!(rt; forming.path.is_empty());
    Ok(())
}
