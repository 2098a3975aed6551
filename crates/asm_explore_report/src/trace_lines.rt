//! The trace of the run that is shown, line by line.
ghost use Rattle.std.specs.Prelude.{◌≡◌, ◌==◌, ◌≤◌, [], ◌∷◌, ◌++◌, length, slice_range, IfOk, OnOk};
ghost use Rattle.asm_explore_texts.specs.Comments.{lines_of};
ghost use Rattle.asm_explore_report.specs.ShownRuns.{shown_of};
ghost use Rattle.asm_explore_report.specs.TraceLines.{AreTraceLines, text_lines};

use crate::confirm_run::made;
use crate::shown_run::ShownRun;
use asm_explore_words::fault::Unshown;
use std::alloc::{AllocError, Global};
use std::thread::Threads;

/// Whether the byte ends a line.
fn ends_line(byte: u8) -> bool
    ensures { result ≡ (byte == 10) }
{
    byte == b'\n'
}

/// Adds a part of a text as a line.
fn add_line(
    alloc: Global,
    lines: &mut Vec<Vec<u8>>,
    text: &[u8],
    from: usize,
    to: usize,
) -> Result<(), AllocError>
    requires forward { from ≤ to }
    requires within { to ≤ length text.now }
    ensures { OnOk result (lines_of lines.new.items ≡ lines_of lines.old.items ++ slice_range text.now from to ∷ []) }
{
    let line = Vec::from_slice(alloc, &text[from..to])?;
    lines.push(line)?;
    Ok(())
}

/// Adds the lines of a text, each without the line feed that ends it.
fn add_lines(alloc: Global, lines: &mut Vec<Vec<u8>>, text: &[u8]) -> Result<(), AllocError>
    ensures { OnOk result (lines_of lines.new.items ≡ lines_of lines.old.items ++ text_lines text.now) }
{
    let mut start = 0;
    for at in 0..text.len() {
        if !ends_line(text[at]) {
            continue;
        }
        add_line(alloc, lines, text, start, at)?;
        start = at + 1;
    }
    let end = text.len();
    if start >= end {
        return Ok(());
    }
    add_line(alloc, lines, text, start, end)?;
    Ok(())
}

/// The lines of the trace of the run that is shown, if there is one. The run is made again.
pub fn trace_lines<R: Threads + Sync>(
    rt: &R,
    alloc: Global,
    text: &[u8],
    turns: u32,
    shown: Option<ShownRun<'_>>,
) -> Result<Vec<Vec<u8>>, Unshown>
    ensures { IfOk result (λ lines. AreTraceLines text.now turns (shown_of shown.entry) (lines_of lines.items)) }
{
    let mut lines = Vec::new(alloc);
    let Some(run) = shown else {
        return Ok(lines);
    };
    let ended = made(rt, alloc, text, turns, run)?;
    add_lines(alloc, &mut lines, ended.trace.as_slice())?;
    Ok(lines)
}
