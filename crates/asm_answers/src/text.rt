//! Texts as tables write them.
//!
//! `@^` marks an offset and is no part of the text. What is between `@N{` and `@}` comes N times,
//! and in it `@#` is the number of the time, from 0. Repetitions nest, and `@#` belongs to the
//! innermost one. `@x0D` is the byte with this number in base 16, of two digits.
use std::alloc::{AllocError, Global};
use std::mem;

/// A text, and the offset of its mark, if it has one.
#[derive(Drop)]
pub struct Marked {
    pub text: Vec<u8>,
    pub at: Option<usize>,
}

/// A part of a text.
#[derive(Clone, Copy)]
enum Piece<'a> {
    /// What is in the table.
    Plain(&'a str),
    /// A byte that the table gives by its number.
    Byte(u8),
    /// The number of the time, which only the end of the repetition gives.
    Number,
    /// The number of a time.
    Time(u32),
    Mark,
}

/// A repetition that is still open: how often it comes, and what is before it.
#[derive(Drop)]
struct Open<'a> {
    times: u32,
    before: Vec<Piece<'a>>,
}

/// A text so far: the open repetitions, outermost first, and the pieces in the innermost of them.
#[derive(Drop)]
struct Reading<'a> {
    open: Vec<Open<'a>>,
    pieces: Vec<Piece<'a>>,
}

impl<'a> Reading<'a> {
    fn push(&mut self, piece: Piece<'a>) -> Result<(), AllocError> {
        Ok(self.pieces.push(piece)?)
    }

    fn begin(&mut self, alloc: Global, times: u32) -> Result<(), AllocError> {
        let before = mem::replace(&mut self.pieces, Vec::new(alloc));
        Ok(self.open.push(Open { times, before })?)
    }

    /// Ends the innermost repetition; false if none is open.
    fn end(&mut self) -> Result<bool, AllocError> {
        let Some(Open { times, before }) = self.open.pop() else {
            return Ok(false);
        };
        let inner = mem::replace(&mut self.pieces, before);
        for time in 0..times {
            for piece in &inner {
                self.pieces.push(match piece {
                    Piece::Number => Piece::Time(time),
                    other => *other,
                })?;
            }
        }
        Ok(true)
    }

    /// Takes what is after an `@`; false if no text has that there.
    fn take(&mut self, alloc: Global, part: &'a str) -> Result<bool, AllocError> {
        let plain = if let Some(plain) = part.strip_prefix('^') {
            self.push(Piece::Mark)?;
            plain
        } else if let Some(plain) = part.strip_prefix('#') {
            if self.open.is_empty() {
                return Ok(false);
            }
            self.push(Piece::Number)?;
            plain
        } else if let Some(plain) = part.strip_prefix('}') {
            if !self.end()? {
                return Ok(false);
            }
            plain
        } else if let Some((byte, plain)) = numbered_byte(part) {
            self.push(Piece::Byte(byte))?;
            plain
        } else if let Some((times, plain)) = beginning(part) {
            self.begin(alloc, times)?;
            plain
        } else {
            return Ok(false);
        };
        self.push(Piece::Plain(plain))?;
        Ok(true)
    }
}

/// The byte with the number that is after an `x`, and what is after that.
fn numbered_byte(part: &str) -> Option<(u8, &str)> {
    let (digits, plain) = part.strip_prefix('x')?.split_at_checked(2)?;
    let byte = u8::from_str_radix(digits, 16).ok()?;
    Some((byte, plain))
}

/// How often the repetition comes that begins here, and what is after its beginning.
fn beginning(part: &str) -> Option<(u32, &str)> {
    let (times, plain) = part.split_once('{')?;
    let times = times.parse::<u32>().ok()?;
    Some((times, plain))
}

/// The pieces, one after the other.
fn joined(alloc: Global, pieces: &[Piece<'_>]) -> Result<Marked, AllocError> {
    let mut text = Vec::new(alloc);
    let mut at = None;
    for piece in pieces {
        match piece {
            Piece::Plain(plain) => text.extend_from_slice(plain.as_bytes())?,
            Piece::Byte(byte) => text.push(*byte)?,
            Piece::Time(time) => {
                let digits = format!(in alloc; "{time}")?;
                text.extend_from_slice(digits.as_bytes())?;
            }
            // No number is left outside repetitions.
            Piece::Number => {}
            Piece::Mark => at = Some(text.len()),
        }
    }
    Ok(Marked { text, at })
}

/// The text that the table writes so; none if a repetition isn't closed, or something else than
/// these is after an `@`.
pub fn expanded(alloc: Global, written: &str) -> Result<Option<Marked>, AllocError> {
    let mut reading = Reading {
        open: Vec::new(alloc),
        pieces: Vec::new(alloc),
    };
    let mut parts = written.split('@');
    if let Some(plain) = parts.next() {
        reading.push(Piece::Plain(plain))?;
    }
    for part in parts {
        if !reading.take(alloc, part)? {
            return Ok(None);
        }
    }
    if !reading.open.is_empty() {
        return Ok(None);
    }
    Ok(Some(joined(alloc, reading.pieces.as_slice())?))
}
