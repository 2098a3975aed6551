//! Worked rows at many numbers of workers, cuts and rounds.
use asm_limits::run_limits::{DEFAULTS, Limits};
use asm_run::end::EndKind;
use asm_run::error::RunError;
use asm_run::run::run;
use asm_run::through::Through;
use std::test::Fail;
use std::thread::Threads;

/// A text, a script, the limit of turns, how a run of one step ends, and its trace.
pub struct Row {
    pub text: &'static [u8],
    pub script: &'static [u8],
    turns: u32,
    end: EndKind,
    pub trace: &'static [u8],
}

pub static CHOICES_IN_FORALL: Row = Row {
    text: b"CoreASM T\ninit M\nenum Color = { red, green, blue }\nuniverse Idx = 0 .. 4\n\
function controlled c : Idx -> Color\nfunction controlled d : Idx\n\
rule M = forall i in Idx with i != 2 do par\n  choose k in Color do c(i) := k endchoose\n\
choose k in Idx with k > i do d(i) := k ifnone d(i) := i endchoose\nendpar endforall\n",
    script: b"1 0.0 4\n1 3.0 2\n1 1.1 1\n1 2.0 1\n",
    turns: 1000,
    end: EndKind::Limit,
    trace: b"step 1 instances 4\nc(0) := green\nc(1) := red\nc(3) := blue\nc(4) := red\n\
d(0) := 1\nd(1) := 3\nd(3) := 4\nd(4) := 4\nend limit\nstate\n\
c(0) = green\nc(1) = red\nc(3) = blue\nc(4) = red\nd(0) = 1\nd(1) = 3\nd(3) = 4\nd(4) = 4\n",
};

static NESTED_FORALL: Row = Row {
    text: b"CoreASM T\ninit M\nuniverse Idx = 0 .. 2\nfunction controlled f : Idx\n\
rule M = forall i in Idx do forall j in Idx with j < i do f(j) := 0 endforall endforall\n",
    script: b"",
    turns: 1000,
    end: EndKind::Limit,
    trace: b"step 1 instances 6\nf(0) := 0\nf(1) := 0\nend limit\nstate\nf(0) = 0\nf(1) = 0\n",
};

static EXHAUSTED_IN_FORALL: Row = Row {
    text: b"CoreASM T\ninit M\nuniverse Idx = 0 .. 1\nfunction controlled f : Idx initially 0\n\
rule M = forall i in Idx do seq skip \
iterate if i = 1 then f(i) := f(i) + 1 endif enditerate endseq endforall\n",
    script: b"",
    turns: 2,
    end: EndKind::Exhausted,
    trace: b"end exhausted step 1 place 1.1\nstate\nf(0) = 0\nf(1) = 0\n",
};

/// A number of workers, a cut and a number of rounds.
type Cutting = (u32, u32, u32);

/// Whether a run of the row that is cut so ends as it says, with its trace.
fn is_shown<R: Threads + Sync + AllocGlobal>(
    rt: &R,
    row: &Row,
    cutting: Cutting,
) -> Result<bool, RunError> {
    let (workers, cut, rounds) = cutting;
    let limits = Limits {
        steps: 1,
        turns: row.turns,
        workers,
        cut,
        rounds,
        ..DEFAULTS
    };
    let mut out = Through::new(Vec::new(rt.alloc()));
    let end = run(rt, rt.alloc(), row.text, row.script, &limits, &mut out)?;
    Ok(end.kind() == row.end && out.into_inner().as_slice() == row.trace)
}

/// The first cutting with which a run of the row isn't as it says.
fn other_cutting<R: Threads + Sync + AllocGlobal>(
    rt: &R,
    row: &Row,
) -> Result<Option<Cutting>, RunError> {
    for workers in [1, 2, 32] {
        for cut in [1, 2, 4096] {
            for rounds in [0, 1, 4, 64] {
                if !is_shown(rt, row, (workers, cut, rounds))? {
                    return Ok(Some((workers, cut, rounds)));
                }
            }
        }
    }
    Ok(None)
}

#[test]
fn choices_in_forall(rt: HostRuntime) -> Result<(), Fail> {
    let other = other_cutting(&rt, &CHOICES_IN_FORALL)?;
    assert!(rt; other == None, "{other:?}");
    Ok(())
}

#[test]
fn nested_forall(rt: HostRuntime) -> Result<(), Fail> {
    let other = other_cutting(&rt, &NESTED_FORALL)?;
    assert!(rt; other == None, "{other:?}");
    Ok(())
}

#[test]
fn exhausted_in_forall(rt: HostRuntime) -> Result<(), Fail> {
    let other = other_cutting(&rt, &EXHAUSTED_IN_FORALL)?;
    assert!(rt; other == None, "{other:?}");
    Ok(())
}
