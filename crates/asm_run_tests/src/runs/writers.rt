//! Traces written to writers that take little, or nothing.
use super::LIMITS;
use crate::regions::rows::CHOICES_IN_FORALL;
use asm_run::end::End;
use asm_run::error::RunError;
use asm_run::run::run;
use asm_run::sink::{Sink, SinkFault};
use asm_run::through::Through;
use std::io;
use std::io::Write;
use std::test::Fail;
use std::thread::Threads;

/// Takes one byte a call, until it holds `most`; then each call is refused in this way, or takes
/// nothing.
#[derive(Drop)]
struct ByteByByte {
    taken: Vec<u8>,
    most: usize,
    refusal: Option<io::ErrorKind>,
}

impl Write for ByteByByte {
    fn write(&mut self, piece: &[u8]) -> io::Result<usize> {
        if self.taken.len() >= self.most {
            return match self.refusal {
                Some(kind) => Err(io::Error::from(kind)),
                None => Ok(0),
            };
        }
        if piece.is_empty() {
            return Ok(0);
        }
        self.taken.push(piece[0])?;
        Ok(1)
    }

    fn flush(&mut self) -> io::Result<()> {
        Ok(())
    }
}

/// Takes nothing, and says so.
#[derive(Drop)]
struct Full;

impl Write for Full {
    fn write(&mut self, _piece: &[u8]) -> io::Result<usize> {
        Ok(0)
    }

    fn flush(&mut self) -> io::Result<()> {
        Ok(())
    }
}

const FULL: Option<io::ErrorKind> = Some(io::ErrorKind::StorageFull);

/// The numbers at the edges of the range, and those about zero.
const TEXT: &[u8] =
    b"CoreASM T\ninit M\nfunction controlled a\nfunction controlled b initially 100000000000000000\n\
function controlled c initially 9\nrule M = par a := -100000000000000000 c := -10 endpar\n";

const TRACE: &[u8] = b"step 1 instances 0\na := -100000000000000000\nc := -10\nend limit\nstate\n\
a = -100000000000000000\nb = 100000000000000000\nc = -10\n";

#[test]
fn a_trace_is_written_through_short_writes(rt: HostRuntime) -> Result<(), Fail> {
    let mut out = Through::new(ByteByByte {
        taken: Vec::new(rt.alloc()),
        most: 1000,
        refusal: FULL,
    });
    let answer = run(&rt, rt.alloc(), TEXT, b"", &LIMITS, &mut out);
    assert!(rt; matches!(answer, Ok(End::Limit)));
    assert!(rt; !out.has_failed());
    assert!(rt; out.get_ref().taken.as_slice() == TRACE);
    Ok(())
}

#[test]
fn a_write_that_fails_ends_the_run(rt: HostRuntime) -> Result<(), Fail> {
    let mut out = Through::new(ByteByByte {
        taken: Vec::new(rt.alloc()),
        most: 20,
        refusal: FULL,
    });
    let answer = run(&rt, rt.alloc(), TEXT, b"", &LIMITS, &mut out);
    assert!(rt; matches!(answer, Err(RunError::Write)));
    assert!(rt; out.has_failed());
    assert!(rt; out.into_inner().taken.as_slice() == &TRACE[..20]);
    Ok(())
}

/// Whether a run into a writer that is refused so after `most` bytes leaves them, and says that it
/// failed, or that it ended if they are the whole trace.
fn leaves_front<R: Threads + Sync + AllocGlobal>(
    rt: &R,
    most: usize,
    refusal: Option<io::ErrorKind>,
) -> bool {
    let row = &CHOICES_IN_FORALL;
    let mut out = Through::new(ByteByByte {
        taken: Vec::new(rt.alloc()),
        most,
        refusal,
    });
    let answer = run(rt, rt.alloc(), row.text, row.script, &LIMITS, &mut out);
    let is_whole = most >= row.trace.len();
    let is_answered = match answer {
        Ok(End::Limit) => is_whole,
        Err(RunError::Write) => !is_whole,
        _ => false,
    };
    let front = row.trace.get(..most).unwrap_or(row.trace);
    is_answered && out.has_failed() != is_whole && out.into_inner().taken.as_slice() == front
}

#[test]
fn each_front_of_a_trace_is_left_where_the_next_byte_is_refused(rt: HostRuntime) {
    // An interrupted write counts as failed, as each that returns an error.
    for refusal in [FULL, Some(io::ErrorKind::Interrupted), None] {
        for most in 0..=CHOICES_IN_FORALL.trace.len() {
            assert!(rt; leaves_front(&rt, most, refusal), "{most} {refusal:?}");
        }
    }
}

#[test]
fn a_writer_that_takes_nothing_fails(rt: HostRuntime) {
    let mut out = Through::new(Full);
    assert!(rt; out.write(b"") == Ok(0));
    assert!(rt; !out.has_failed());
    let answer = run(&rt, rt.alloc(), TEXT, b"", &LIMITS, &mut out);
    assert!(rt; matches!(answer, Err(RunError::Write)));
    assert!(rt; out.has_failed());
    assert!(rt; out.write(b"") == Ok(0));
    assert!(rt; out.has_failed());
}

#[test]
fn a_long_piece_is_written_whole(rt: HostRuntime) -> Result<(), Fail> {
    let mut piece = Vec::new(rt.alloc());
    piece.resize(4_000_000, b'x')?;
    let mut out = Through::new(Vec::new(rt.alloc()));
    assert!(rt; out.write(piece.as_slice()) == Ok(4_000_000));
    assert!(rt; !out.has_failed());
    assert!(rt; out.into_inner().as_slice() == piece.as_slice());
    Ok(())
}
