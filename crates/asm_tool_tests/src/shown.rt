//! What the program shows over a reader and writers in memory.
use asm_files::folder::Disk;
use asm_files::output::{Through, buffered};
use asm_tool::fault::Fault;
use asm_tool::status::{refusal, status};
use std::io::{Read, Write};
use std::rt::Files;
use std::thread::Threads;

pub const COUNTER: &[u8] =
    b"CoreASM T\ninit M\nfunction controlled x initially 0\nrule M = x := x + 1\n";

/// The trace of the counter's first three steps.
pub const THREE_STEPS: &[u8] =
    b"step 1 instances 0\nx := 1\nstep 2 instances 0\nx := 2\nstep 3 instances 0\nx := 3\nend limit\nstate\nx = 3\n";

/// The words for these steps.
pub const WORDS: [&str; 2] = ["--steps", "3"];

/// What the program shows.
#[derive(Debug, Drop)]
pub struct Shown {
    pub status: u8,
    pub trace: Vec<u8>,
    pub line: Vec<u8>,
}

/// The status that the program ends with over the system's files, this reader and these writers.
pub fn status_by<
    R: Threads + Sync + Files + AllocGlobal,
    I: Read + Drop,
    O: Write + Drop,
    E: Write,
>(rt: &R, words: &[&str], input: I, out: O, err: &mut E) -> u8 {
    let mut err = Through::new(err);
    match buffered(rt.alloc(), out) {
        Ok(mut out) => status(rt, &Disk::new(rt), words, input, &mut out, &mut err),
        Err(error) => refusal(&Fault::from(error), &mut err),
    }
}

/// What the program shows if both writers take everything.
pub fn shown_by<R: Threads + Sync + Files + AllocGlobal, I: Read + Drop>(
    rt: &R,
    words: &[&str],
    input: I,
) -> Shown {
    let mut trace = Vec::new(rt.alloc());
    let mut line = Vec::new(rt.alloc());
    let status = status_by(rt, words, input, &mut trace, &mut line);
    Shown {
        status,
        trace,
        line,
    }
}
