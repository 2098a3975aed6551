//! Readers that have no end, fail, break off, or give a byte at a time.
ghost use Rattle.std.specs.Prelude.{None};

use crate::shown::{COUNTER, Shown, THREE_STEPS, WORDS, shown_by};
use asm_files::fault::ReadFault;
use asm_files::folder::Folder;
use asm_files::input::script;
use std::io;
use std::io::Read;

/// Gives spaces without an end, and counts them.
#[derive(Drop)]
struct Endless {
    given: usize,
}

impl Read for Endless {
    fn read(&mut self, buffer: &mut [u8]) -> io::Result<usize> {
        for byte in buffer.iter_mut() {
            *byte = b' ';
        }
        self.given = self.given.saturating_add(buffer.len());
        Ok(buffer.len())
    }
}

/// Fails at its first read.
#[derive(Drop)]
struct Unreadable {
    kind: io::ErrorKind,
}

impl Read for Unreadable {
    fn read(&mut self, _buffer: &mut [u8]) -> io::Result<usize> {
        Err(io::Error::from(self.kind))
    }
}

const BROKEN: Unreadable = Unreadable {
    kind: io::ErrorKind::InvalidData,
};

const FULL: Unreadable = Unreadable {
    kind: io::ErrorKind::OutOfMemory,
};

/// Gives a byte a call, and is interrupted before each.
#[derive(Drop)]
struct Slow<'a> {
    left: &'a [u8],
    is_interrupted: bool,
}

impl Read for Slow<'_> {
    fn read(&mut self, buffer: &mut [u8]) -> io::Result<usize> {
        self.is_interrupted = !self.is_interrupted;
        if self.is_interrupted {
            return Err(io::Error::from(io::ErrorKind::Interrupted));
        }
        match (self.left.split_first(), buffer.first_mut()) {
            (Some((byte, left)), Some(place)) => {
                *place = *byte;
                self.left = left;
                Ok(1)
            }
            _ => Ok(0),
        }
    }
}

/// A folder whose files all have these five bytes.
#[derive(Drop)]
struct Fives;

impl Folder for Fives {
    type File = &'static [u8];

    ghost contents = { λ _ _. None };

    fn open(&self, _name: &str) -> io::Result<&'static [u8]> {
        Ok(b"12345".as_slice())
    }
}

/// Whether the program ends with this line, by a status of 3 and without a trace.
fn is_refused(shown: &Shown, line: &[u8]) -> bool {
    shown.line.as_slice() == line && shown.trace.is_empty() && shown.status == 3
}

#[test]
fn words_are_looked_at_before_the_text(rt: HostRuntime) {
    let mut input = Endless { given: 0 };
    let shown = shown_by(&rt, &["--steps", "x"], &mut input);
    assert_eq!(rt; shown.status, 4);
    assert_eq!(rt; input.given, 0);
}

#[test]
fn a_text_without_an_end_is_read_no_further_than_it_may_be_long(rt: HostRuntime) {
    let mut input = Endless { given: 0 };
    let shown = shown_by(&rt, WORDS.as_slice(), &mut input);
    assert_eq!(rt; input.given, 1_048_577);
    assert_eq!(rt; shown.line.as_slice(), b"read 1\n".as_slice());
    assert_eq!(rt; shown.trace.len(), 0);
    assert_eq!(rt; shown.status, 2);
}

#[test]
fn a_text_that_comes_byte_by_byte(rt: HostRuntime) {
    let slow = Slow {
        left: COUNTER,
        is_interrupted: false,
    };
    let shown = shown_by(&rt, WORDS.as_slice(), slow);
    assert_eq!(rt; shown.trace.as_slice(), THREE_STEPS);
    assert_eq!(rt; shown.line.len(), 0);
    assert_eq!(rt; shown.status, 0);
}

#[test]
fn a_text_that_breaks_off(rt: HostRuntime) {
    for length in 0..=COUNTER.len() {
        let front = COUNTER.get(..length).unwrap_or(COUNTER);
        let shown = shown_by(&rt, WORDS.as_slice(), front.chain(BROKEN));
        assert!(rt; is_refused(&shown, b"file\n"), "{length}: {shown:?}");
    }
}

#[test]
fn a_reader_that_has_no_memory(rt: HostRuntime) {
    let shown = shown_by(&rt, WORDS.as_slice(), FULL);
    assert!(rt; is_refused(&shown, b"memory\n"), "{shown:?}");
}

#[test]
fn the_script_is_read_behind_the_text(rt: HostRuntime) {
    let words = ["--steps", "3", "--script", "no_such_folder/script"];
    let shown = shown_by(&rt, words.as_slice(), FULL);
    assert!(rt; is_refused(&shown, b"memory\n"), "{shown:?}");
}

#[test]
fn a_script_is_read_as_far_as_is_asked_for(rt: HostRuntime) -> Result<(), ReadFault> {
    for (most, bytes) in [(0, ""), (3, "123"), (5, "12345"), (6, "12345")] {
        let script = script(&Fives, rt.alloc(), Some("five"), most)?;
        assert_eq!(rt; script.as_slice(), bytes.as_bytes(), "{most}");
    }
    Ok(())
}
