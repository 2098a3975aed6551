//! Where an offset is in a text.
ghost use Rattle.std.specs.Prelude.{◌≡◌};
ghost use Rattle.std.specs.List.{after_last, before_first};
ghost use Rattle.std.specs.Str.{IsUtf8};
ghost use Rattle.asm_explore_texts.specs.Positions.{before_in_line, column_in_text, column_number, from_in_line, is_line_feed, line_number};

use crate::characters::Characters;

/// A line of a text, in two parts around an offset.
#[derive(Clone, Copy, Debug)]
pub struct Line<'t> {
    /// Its number, from 1.
    pub number: usize,
    /// What is in it before the offset.
    pub before: &'t [u8],
    /// What is in it from the offset on, without the line feed that ends it.
    pub rest: &'t [u8],
}

impl<'t> Line<'t> {
    /// The line with this offset, or the last line if the text ends before it.
    pub fn with(text: &'t [u8], at: usize) -> Line<'t>
        ensures number { result.number ≡ line_number text.now at }
        ensures before { result.before.now ≡ before_in_line text.now at }
        ensures rest { result.rest.now ≡ from_in_line text.now at }
    {
        let (before, rest) = text.split_at(at.min(text.len()));
        Line {
            number: before.iter().filter(|byte| **byte == b'\n').count() + 1,
            before: last_line(before),
            rest: first_line(rest),
        }
    }
}

/// What is after the last line feed, or all if there is none.
fn last_line(text: &[u8]) -> &[u8]
    ensures { result.now ≡ after_last is_line_feed text.now }
{
    text.rsplit(|byte| *byte == b'\n').next().unwrap_or(text)
}

/// What is before the first line feed, or all if there is none.
fn first_line(text: &[u8]) -> &[u8]
    ensures { result.now ≡ before_first is_line_feed text.now }
{
    text.split(|byte| *byte == b'\n').next().unwrap_or(text)
}

/// A place in a text, as an editor counts.
#[derive(Clone, Copy, Debug, PartialEq, Eq)]
pub struct Position {
    /// The line, from 1.
    pub line: usize,
    /// The character in the line, from 1. A byte that belongs to none counts as one.
    pub column: usize,
}

impl Position {
    /// The place of this offset, or the end of the text if it ends before that.
    pub fn of(text: &[u8], at: usize) -> Position
        ensures line { result.line ≡ line_number text.now at }
        ensures column { result.column ≡ column_number text.now at }
        ensures text { IsUtf8 (before_in_line text.now at) → result.column ≡ column_in_text text.now at }
    {
        let line = Line::with(text, at);
        Position {
            line: line.number,
            column: Characters::count_of(line.before) + 1,
        }
    }
}
