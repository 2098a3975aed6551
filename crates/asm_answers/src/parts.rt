//! The parts of a case of a run.
//!
//! First come the lines of the specification, after the first two, `CoreASM T` and `init M`; then,
//! after a line `--- script`, a script, which may be missing; then, after a line `--- trace` or
//! `--- answer`, the trace or the refusal that is expected.
use crate::answer;
use crate::text::{Marked, expanded};
use std::alloc::{AllocError, Global};

const FIRST_LINES: &[u8] = b"CoreASM T\ninit M\n";

/// What a case hands to a run, and what it expects of it: how it ends, or why it is refused, and
/// after this line what is written.
#[derive(Drop)]
pub struct Parts {
    pub text: Vec<u8>,
    pub script: Vec<u8>,
    pub wanted: String,
}

/// What a case expects, as the table writes it.
#[derive(Clone, Copy)]
enum Expected<'a> {
    Trace(&'a str),
    Refusal(&'a str),
}

impl<'a> Expected<'a> {
    /// What is before that which is expected, and this.
    fn split(text: &'a str) -> Option<(&'a str, Expected<'a>)> {
        if let Some((before, trace)) = text.split_once("\n--- trace\n") {
            return Some((before, Expected::Trace(trace)));
        }
        let (before, refusal) = text.split_once("\n--- answer\n")?;
        Some((before, Expected::Refusal(refusal)))
    }

    /// What is expected, with the offset of the mark; none if a repetition doesn't fit.
    fn wanted(self, alloc: Global, mark: Option<usize>) -> Result<Option<String>, AllocError> {
        match self {
            Expected::Trace(trace) => {
                let Some(trace) = expanded(alloc, trace)? else {
                    return Ok(None);
                };
                let trace = String::from_utf8_lossy(alloc, trace.text.as_slice())?;
                let ending = ending(trace.as_str());
                Ok(Some(format!(in alloc; "{ending}\n{trace}\n")?))
            }
            Expected::Refusal(refusal) => {
                let refusal = answer::wanted(alloc, refusal, mark)?;
                Ok(Some(format!(in alloc; "{refusal}\n")?))
            }
        }
    }
}

/// The word for the end of a run in its trace.
fn ending(trace: &str) -> &str {
    for line in trace.split('\n') {
        if let Some(ending) = line.strip_prefix("end ") {
            return ending.split_once(' ').map_or(ending, |(word, _)| word);
        }
    }
    ""
}

/// The text with these lines; a whole one has its first lines itself.
fn text_of(alloc: Global, lines: Marked, is_whole: bool) -> Result<Marked, AllocError> {
    if is_whole {
        return Ok(lines);
    }
    let mut text = FIRST_LINES.to_vec(alloc)?;
    text.extend_from_slice(lines.text.as_slice())?;
    text.push(b'\n')?;
    let at = lines.at.map(|at| at.saturating_add(FIRST_LINES.len()));
    Ok(Marked { text, at })
}

impl Parts {
    /// The parts of a case with this text; none if it hasn't such parts, or a repetition doesn't
    /// fit.
    pub fn new(alloc: Global, text: &str, is_whole: bool) -> Result<Option<Parts>, AllocError> {
        let Some((before, expected)) = Expected::split(text) else {
            return Ok(None);
        };
        let (lines, script) = before.split_once("\n--- script\n").unwrap_or((before, ""));
        let Some(lines) = expanded(alloc, lines)? else {
            return Ok(None);
        };
        let Some(script) = expanded(alloc, script)? else {
            return Ok(None);
        };
        let text = text_of(alloc, lines, is_whole)?;
        let Some(wanted) = expected.wanted(alloc, text.at)? else {
            return Ok(None);
        };
        Ok(Some(Parts {
            text: text.text,
            script: script.text,
            wanted,
        }))
    }
}
