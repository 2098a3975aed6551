//! Writers that are closed, can't let go of what they took, take a byte at a time, or break off.
use crate::shown::{COUNTER, THREE_STEPS, WORDS, status_by};
use std::io;
use std::io::Write;
use std::rt::Files;
use std::thread::Threads;

/// Takes nothing at all.
#[derive(Drop)]
struct Closed;

impl Write for Closed {
    fn write(&mut self, _piece: &[u8]) -> io::Result<usize> {
        Err(io::Error::from(io::ErrorKind::BrokenPipe))
    }

    fn flush(&mut self) -> io::Result<()> {
        Ok(())
    }
}

/// Takes everything, and then can't let go of it.
#[derive(Drop)]
struct Unflushed;

impl Write for Unflushed {
    fn write(&mut self, piece: &[u8]) -> io::Result<usize> {
        Ok(piece.len())
    }

    fn flush(&mut self) -> io::Result<()> {
        Err(io::Error::from(io::ErrorKind::StorageFull))
    }
}

/// Takes a byte a call, and is interrupted before each; once it has `most` it takes nothing, or is
/// refused in this way. It sees whether they are the front of the counter's trace.
#[derive(Drop)]
struct Narrow {
    taken: usize,
    is_front: bool,
    most: usize,
    refusal: Option<io::ErrorKind>,
    is_interrupted: bool,
}

impl Narrow {
    fn new(most: usize, refusal: Option<io::ErrorKind>) -> Narrow {
        Narrow {
            taken: 0,
            is_front: true,
            most,
            refusal,
            is_interrupted: false,
        }
    }
}

impl Write for Narrow {
    fn write(&mut self, piece: &[u8]) -> io::Result<usize> {
        self.is_interrupted = !self.is_interrupted;
        if self.is_interrupted {
            return Err(io::Error::from(io::ErrorKind::Interrupted));
        }
        match (piece.first(), self.refusal) {
            (Some(byte), _) if self.taken < self.most => {
                if THREE_STEPS.get(self.taken) != Some(byte) {
                    self.is_front = false;
                }
                self.taken += 1;
                Ok(1)
            }
            (Some(_), Some(kind)) => Err(io::Error::from(kind)),
            _ => Ok(0),
        }
    }

    fn flush(&mut self) -> io::Result<()> {
        Ok(())
    }
}

#[test]
fn an_output_that_fails_at_once(rt: HostRuntime) {
    let mut line = Vec::new(rt.alloc());
    let status = status_by(&rt, WORDS.as_slice(), COUNTER, Closed, &mut line);
    assert_eq!(rt; line.as_slice(), b"write\n".as_slice());
    assert_eq!(rt; status, 3);
}

#[test]
fn an_output_that_keeps_back_what_it_took(rt: HostRuntime) {
    let mut line = Vec::new(rt.alloc());
    let status = status_by(&rt, WORDS.as_slice(), COUNTER, Unflushed, &mut line);
    assert_eq!(rt; line.as_slice(), b"write\n".as_slice());
    assert_eq!(rt; status, 3);
}

#[test]
fn a_line_that_cannot_be_written_changes_nothing(rt: HostRuntime) {
    let mut trace = Vec::new(rt.alloc());
    let status = status_by(
        &rt,
        WORDS.as_slice(),
        b"".as_slice(),
        &mut trace,
        &mut Closed,
    );
    assert_eq!(rt; status, 2);
    assert_eq!(rt; trace.len(), 0);
}

/// Whether an output that takes this many bytes gets just the trace's first ones, and the status
/// and the line say that it failed.
fn breaks_off<R: Threads + Sync + Files + AllocGlobal>(
    rt: &R,
    length: usize,
    refusal: Option<io::ErrorKind>,
) -> bool {
    let mut out = Narrow::new(length, refusal);
    let mut line = Vec::new(rt.alloc());
    let status = status_by(rt, WORDS.as_slice(), COUNTER, &mut out, &mut line);
    let is_told = status == 3 && line.as_slice() == b"write\n".as_slice();
    is_told && out.is_front && out.taken == length
}

#[test]
fn a_trace_that_breaks_off(rt: HostRuntime) {
    for refusal in [Some(io::ErrorKind::StorageFull), None] {
        for length in 0..THREE_STEPS.len() {
            assert!(rt; breaks_off(&rt, length, refusal), "{length}");
        }
    }
}

#[test]
fn a_trace_that_is_taken_byte_by_byte(rt: HostRuntime) {
    let mut out = Narrow::new(THREE_STEPS.len(), None);
    let mut line = Vec::new(rt.alloc());
    let status = status_by(&rt, WORDS.as_slice(), COUNTER, &mut out, &mut line);
    assert_eq!(rt; line.len(), 0);
    assert!(rt; out.is_front && out.taken == THREE_STEPS.len());
    assert_eq!(rt; status, 0);
}
