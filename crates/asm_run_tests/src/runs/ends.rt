//! What a run returns of its end, in words, beside its trace.
use asm_limits::run_limits::{DEFAULTS, Limits};
use asm_run::end::EndKind;
use asm_run::end_words::push_end_words;
use asm_run::run::run;
use asm_run::through::Through;
use asm_tests::checked_text::checked_of;
use std::test::Fail;
use std::thread::Threads;

/// A text, how its run of two steps of at most three turns ends, and the trace of it.
struct Ended {
    text: &'static [u8],
    kind: EndKind,
    step: Option<u64>,
    words: &'static [u8],
    trace: &'static [u8],
}

static ENDS: [Ended; 5] = [
    Ended {
        text: b"CoreASM T init M rule M = skip",
        kind: EndKind::Limit,
        step: None,
        words: b"limit",
        trace: b"step 1 instances 0\nstep 2 instances 0\nend limit\nstate\n",
    },
    Ended {
        text: b"CoreASM T init M enum Color = { red, green } universe Near = -1 .. 0 \
function controlled n initially 0 function controlled f : Color * Near \
rule M = par n := n + 1 if n = 1 then par f(green, -1) := 7 f(green, -1) := red \
f(green, -1) := true endpar endif endpar",
        kind: EndKind::Clash,
        step: Some(2),
        words: b"clash f(green, -1) least true greatest red",
        trace: b"step 1 instances 0\nn := 1\n\
end clash step 2 f(green, -1) least true greatest red\nstate\nn = 1\n",
    },
    Ended {
        text: b"CoreASM T init M function controlled n rule M = par n := -3 n := undef endpar",
        kind: EndKind::Clash,
        step: Some(1),
        words: b"clash n least undef greatest -3",
        trace: b"end clash step 1 n least undef greatest -3\nstate\n",
    },
    Ended {
        text: b"CoreASM T init M universe Few = 0 .. 1 function controlled g \
function controlled f : Few rule M = f(2) := 0",
        kind: EndKind::Outside,
        step: Some(1),
        words: b"outside f",
        trace: b"end outside step 1 f\nstate\n",
    },
    Ended {
        text: b"CoreASM T init M function controlled n initially 0 \
rule M = par skip seq skip iterate n := n + 1 enditerate endseq endpar",
        kind: EndKind::Exhausted,
        step: Some(1),
        words: b"exhausted place 1.1",
        trace: b"end exhausted step 1 place 1.1\nstate\nn = 0\n",
    },
];

/// Whether the run of the row ends as it says.
fn is_told<R: Threads + Sync + AllocGlobal>(rt: &R, row: &Ended) -> Result<bool, Fail> {
    let limits = Limits {
        steps: 2,
        turns: 3,
        ..DEFAULTS
    };
    let mut out = Through::new(Vec::new(rt.alloc()));
    let end = run(rt, rt.alloc(), row.text, b"", &limits, &mut out)?;
    let checked = checked_of(rt.alloc(), row.text)?;
    let mut words = Vec::new(rt.alloc());
    push_end_words(&mut words, &checked, &end)?;
    let told = (end.kind(), end.step()) == (row.kind, row.step);
    Ok(told && words.as_slice() == row.words && out.into_inner().as_slice() == row.trace)
}

#[test]
fn ends_are_told(rt: HostRuntime) -> Result<(), Fail> {
    for (at, row) in ENDS.iter().enumerate() {
        assert!(rt; is_told(&rt, row)?, "{at}");
    }
    Ok(())
}
