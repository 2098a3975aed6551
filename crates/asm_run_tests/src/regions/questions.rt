//! Two workers ask which candidates are taken.
ghost use Rattle.std.specs.Prelude.{◌≡◌};
ghost use Rattle.asm_syntax.specs.code.Views.{spec_of};
ghost use Rattle.asm_check.specs.Shapes.{shape_of};
ghost use Rattle.asm_reader.specs.ScriptLines.{no_lines};

use super::meetings::Meeting;
use asm_check::Checked;
use asm_eval::evaluation::Evaluation;
use asm_eval::frame::Frame;
use asm_eval::{Choices, Outcome, View};
use asm_limits::run_limits::{DEFAULTS, Limits};
use asm_pool::NoGate;
use asm_reader::Picks;
use asm_resolve::main_rule::resolve_main;
use asm_run::pooled::Pooled;
use asm_tests::beginning::Beginning;
use asm_tests::checked_text::checked_of;
use asm_tests::plain::{Entry, Plain};
use asm_tests::rules::is_set;
use std::alloc::{AllocError, Global};
use std::sync::atomic::{AtomicU64, Ordering};
use std::test::Fail;
use std::thread::Threads;

/// Returns 0, and holds the question at each of two paths until that at the other is asked.
#[derive(Drop)]
struct Holding {
    meeting: Meeting,
    elsewhere: AtomicU64,
}

impl Picks for Holding {
    ghost script = { λ _. no_lines };

    fn pick(&self, _step: u64, path: &[u64]) -> u64 {
        if path == [0].as_slice() {
            self.meeting.first_comes();
        } else if path == [1].as_slice() {
            self.meeting.second_comes();
        } else {
            self.elsewhere.fetch_add(1, Ordering::SeqCst);
        }
        0
    }
}

const TWO_QUESTIONS: &str = "CoreASM T init M enum Color = { red, green } \
function controlled c function controlled d \
rule M = par choose k in Color do c := k endchoose choose k in Color do d := k endchoose endpar";

const LIMITS: Limits = Limits {
    steps: 1,
    workers: 2,
    rounds: 1,
    ..DEFAULTS
};

/// What the main rule yields in what the view shows, its regions worked by two workers.
fn main_outcome<'a, R: Threads + Sync>(
    rt: &R,
    alloc: Global,
    checked: &'a Checked,
    view: &'a View<'_>,
    choices: &'a Choices<'a, Holding>,
) -> Result<Outcome, AllocError>
    requires { view.now.signature.now ≡ shape_of (spec_of checked.now.spec) }
{
    let code = resolve_main(alloc, checked)?;
    let evaluation = Evaluation {
        view,
        choices,
        turns: 1000,
    };
    let pooled = Pooled::new(rt, &LIMITS, &NoGate);
    let outcome = pooled.outcome(alloc, &evaluation, &Frame::Empty, &code, &[]);
    drop(code);
    outcome
}

/// The same in the initial state.
fn outcome_of<R: Threads + Sync + AllocGlobal>(
    rt: &R,
    checked: &Checked,
    picks: &Holding,
) -> Result<Outcome, AllocError> {
    let alloc = rt.alloc();
    let beginning = Beginning::of(alloc, checked)?;
    let view = beginning.view();
    let choices = Choices {
        script: picks,
        step: 1,
    };
    main_outcome(rt, alloc, checked, &view, &choices)
}

/// The first colour, at each of the two locations that aren't stray.
const RED_TWICE: [Entry; 2] = [
    (0, Plain::Element(0), Plain::Element(0)),
    (2, Plain::Element(0), Plain::Element(0)),
];

#[test]
fn picks_meet(rt: HostRuntime) -> Result<(), Fail> {
    let checked = checked_of(rt.alloc(), TWO_QUESTIONS.as_bytes())?;
    let picks = Holding {
        meeting: Meeting::new(),
        elsewhere: AtomicU64::new(0),
    };
    let outcome = outcome_of(&rt, &checked, &picks);
    drop(checked);
    assert!(rt; is_set(outcome?, 0, &RED_TWICE));
    assert!(rt; picks.meeting.happened_once());
    assert!(rt; picks.elsewhere.load(Ordering::SeqCst) == 0);
    Ok(())
}
