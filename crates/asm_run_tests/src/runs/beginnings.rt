//! Beginnings of texts.
use super::LIMITS;
use crate::regions::rows::CHOICES_IN_FORALL;
use asm_run::end::EndKind;
use asm_run::error::RunError;
use asm_run::run::run;
use asm_run::through::Through;
use std::test::Fail;
use std::thread::Threads;

/// What is returned for a beginning, with the number and the offset of its refusal.
#[derive(Clone, Copy, Debug, PartialEq, Eq)]
enum Told {
    Read(u8, Option<usize>),
    Check(u8, usize),
    Ran(EndKind),
}

const SKIP: &[u8] = b"CoreASM T\ninit M\nrule M = skip";

/// How many bytes of the smallest text are given, and what is told of them.
static BEGINNINGS_OF_SKIP: [(usize, Told); 11] = [
    (0, Told::Read(6, None)),
    (6, Told::Read(5, Some(0))),
    (7, Told::Read(6, None)),
    (9, Told::Check(14, 9)),
    (13, Told::Read(5, Some(10))),
    (14, Told::Read(6, None)),
    (16, Told::Check(14, 15)),
    (21, Told::Read(6, None)),
    (25, Told::Read(6, None)),
    (29, Told::Check(9, 26)),
    (30, Told::Ran(EndKind::Limit)),
];

/// A text with terms of each kind.
const TERMS: &[u8] =
    b"CoreASM T\ninit M\nuniverse Idx = 0 .. 3\nfunction static g : Idx initially { (0) -> 4, (2) -> 6 }\n\
derived twice(n) = g(n) * 2\nfunction controlled x\nfunction controlled y\nfunction controlled z\nfunction controlled w\n\
rule M = par x := twice(2) y := (exists i in Idx with g(i) = 4) z := -7 mod 2 \
w := (forall i in Idx holds g(i) > 3) endpar\n";

/// What is told of a text, and how many bytes are written.
fn answer_to<R: Threads + Sync + AllocGlobal>(
    rt: &R,
    text: &[u8],
    script: &[u8],
) -> Result<(Told, usize), RunError> {
    let mut out = Through::new(Vec::new(rt.alloc()));
    let told = match run(rt, rt.alloc(), text, script, &LIMITS, &mut out) {
        Ok(end) => Told::Ran(end.kind()),
        Err(RunError::Read(reason)) => Told::Read(reason.number(), reason.at()),
        Err(RunError::Check(fault)) => Told::Check(fault.number(), fault.at),
        Err(other) => return Err(other),
    };
    Ok((told, out.into_inner().len()))
}

/// Whether what is told of a beginning of a text that has no fault can be told of one, and nothing
/// is written if it is refused.
fn is_of_beginning(told: Told, written: usize, length: usize) -> bool {
    match told {
        Told::Read(2 | 3 | 5, Some(at)) => at < length && written == 0,
        Told::Read(6, None) => written == 0,
        Told::Check(8..=17, at) => at <= length && written == 0,
        Told::Ran(EndKind::Limit) => written > 0,
        _ => false,
    }
}

/// The first length of a beginning of which something else is told.
fn first_other<R: Threads + Sync + AllocGlobal>(
    rt: &R,
    text: &[u8],
    script: &[u8],
) -> Result<Option<usize>, RunError> {
    for length in 0..text.len() {
        let (told, written) = answer_to(rt, &text[..length], script)?;
        if !is_of_beginning(told, written, length) {
            return Ok(Some(length));
        }
    }
    Ok(None)
}

#[test]
fn beginnings_of_skip(rt: HostRuntime) -> Result<(), Fail> {
    for (length, expected) in &BEGINNINGS_OF_SKIP {
        let beginning = SKIP.get(..*length).unwrap_or(SKIP);
        let (told, written) = answer_to(&rt, beginning, b"")?;
        assert_eq!(rt; told, *expected, "{length}");
        assert_eq!(rt; written > 0, told == Told::Ran(EndKind::Limit), "{length}");
    }
    Ok(())
}

#[test]
fn beginnings_of_choices_in_forall(rt: HostRuntime) -> Result<(), Fail> {
    let row = &CHOICES_IN_FORALL;
    assert_eq!(rt; first_other(&rt, row.text, row.script)?, None);
    Ok(())
}

/// A text with each rule that has to do with results, and a `while`.
const ANSWERS: &[u8] =
    b"CoreASM T\ninit M\nfunction controlled x initially 0\nfunction controlled y initially 0\n\
rule M = while x < 3 do seq x <- r(y, 1) y := -x endseq endwhile\n\
rule r(p, q) = if result < p then result := q else result := result + q endif\n";

#[test]
fn beginnings_of_answers(rt: HostRuntime) -> Result<(), Fail> {
    assert_eq!(rt; first_other(&rt, ANSWERS, b"")?, None);
    Ok(())
}

#[test]
fn beginnings_of_terms(rt: HostRuntime) -> Result<(), Fail> {
    assert_eq!(rt; first_other(&rt, TERMS, b"")?, None);
    Ok(())
}
