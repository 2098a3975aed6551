//! Tables of cases.
//!
//! A case begins with a line `=== ANSWER`, and the lines up to the next such line are its text,
//! without the last line feed: so a text that ends in a line feed has an empty line after it, and
//! with no line at all a text is empty. What is before the first case, and below a line `=== note`,
//! is for people. The text of a run has parts (`parts`).
use crate::text::expanded;
use crate::{answer, run};
use std::alloc::{AllocError, Global};
use std::io;
use std::io::Write;
use std::thread::Threads;

/// How many cases were as expected, and how many not.
#[derive(Clone, Copy)]
pub struct Counts {
    pub as_expected: u64,
    pub others: u64,
}

/// What a case expects, and its text as the table writes it.
#[derive(Clone, Copy)]
struct Case<'a> {
    wanted: &'a str,
    text: &'a str,
}

impl<'a> Case<'a> {
    fn new(lines: &'a str) -> Case<'a> {
        let (wanted, text) = lines.split_once('\n').unwrap_or((lines, ""));
        Case { wanted, text }
    }

    /// What is expected and what is found, both in full.
    fn answers<R: Threads + Sync>(
        &self,
        rt: &R,
        alloc: Global,
    ) -> Result<(String, String), AllocError> {
        if self.wanted.starts_with("run") {
            return run::answers(rt, alloc, self.wanted, self.text);
        }
        let Some(marked) = expanded(alloc, self.text)? else {
            let wanted = String::from_str(alloc, self.wanted)?;
            let found = String::from_str(alloc, "no text: a repetition doesn't fit")?;
            return Ok((wanted, found));
        };
        let wanted = answer::wanted(alloc, self.wanted, marked.at)?;
        let found = answer::found(alloc, self.wanted, marked.text.as_slice())?;
        Ok((wanted, found))
    }
}

/// Whether what is found for a case is what is expected; if it isn't, writes the case, with its
/// number.
fn is_as_expected<R: Threads + Sync, W: Write>(
    rt: &R,
    alloc: Global,
    case: &Case<'_>,
    number: u64,
    out: &mut W,
) -> io::Result<bool> {
    let (wanted, found) = case.answers(rt, alloc)?;
    if wanted == found {
        return Ok(true);
    }
    let header = case.wanted;
    writeln!(
        out,
        "case {number}, {header}: {wanted} expected, {found} found"
    )?;
    Ok(false)
}

/// Writes each case of the table for which something else is found than is expected, and how many
/// there are of both.
pub fn compare<R: Threads + Sync, W: Write>(
    rt: &R,
    alloc: Global,
    table: &str,
    out: &mut W,
) -> io::Result<Counts> {
    let table = table.strip_suffix('\n').unwrap_or(table);
    let mut counts = Counts {
        as_expected: 0,
        others: 0,
    };
    for lines in table.split("\n=== ").skip(1) {
        let case = Case::new(lines);
        if case.wanted == "note" {
            continue;
        }
        let number = counts.as_expected.saturating_add(counts.others);
        if is_as_expected(rt, alloc, &case, number.saturating_add(1), out)? {
            counts.as_expected = counts.as_expected.saturating_add(1);
        } else {
            counts.others = counts.others.saturating_add(1);
        }
    }
    let Counts {
        as_expected,
        others,
    } = counts;
    writeln!(out, "{as_expected} as expected, {others} not")?;
    Ok(counts)
}
