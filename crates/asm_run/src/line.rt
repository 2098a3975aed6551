//! A line that is written from its end to its start.
ghost use Rattle.std.specs.Prelude.{◌≡◌, ◌+◌, ◌≤◌, ◌++◌, [], length, decimal};
ghost use Rattle.std.specs.Fmt.{signed_decimal};

use itoa::write_digits;
use std::marker::Model;

/// The longest line that is written so.
const MAX_LINE: usize = 64;

/// The last bytes of a line, 64 at most.
#[derive(Drop)]
pub(crate) struct Line {
    bytes: [u8; MAX_LINE],
    start: usize,
}

impl Model for Line {
    ghost use Rattle.std.specs.Prelude.{List, ℕ, ◌≤◌, drop};

    ghost Value = { List ℕ };

    ghost view = { λ l. drop l.start l.bytes };

    ghost invariant = { λ l. l.start ≤ 64 };
}

impl Line {
    #[inline(always)]
    pub(crate) fn new() -> Line
        ensures { result ≡ [] }
    {
        Line {
            bytes: [0; MAX_LINE],
            start: MAX_LINE,
        }
    }

    /// Adds a text before what is there.
    #[inline(always)]
    pub(crate) fn text(&mut self, text: &[u8])
        requires { length text.now + length self.old ≤ 64 }
        ensures { self.new ≡ text.now ++ self.old }
    {
        let end = self.start;
        let start = end - text.len();
        self.bytes[start..end].copy_from_slice(text);
        self.start = start;
    }

    /// Adds a number before what is there.
    #[inline(always)]
    pub(crate) fn count(&mut self, count: u64)
        requires { 20 + length self.old ≤ 64 }
        ensures text { self.new ≡ decimal count ++ self.old }
        ensures room { length self.new ≤ 20 + length self.old }
    {
        self.start = write_digits(count, &mut self.bytes, self.start);
    }

    /// Adds a number with a sign before what is there.
    #[inline(always)]
    pub(crate) fn number(&mut self, number: i64)
        requires { 21 + length self.old ≤ 64 }
        ensures text { self.new ≡ signed_decimal number ++ self.old }
        ensures room { length self.new ≤ 21 + length self.old }
    {
        self.count(number.unsigned_abs());
        if number < 0 {
            self.text(b"-");
        }
    }

    /// What is written.
    #[inline(always)]
    pub(crate) fn as_slice(&self) -> &[u8]
        ensures { result.now ≡ self.now }
    {
        &self.bytes[self.start..]
    }
}
