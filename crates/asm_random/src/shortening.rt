//! Runs that go wrong, made shorter.
ghost use Rattle.std.specs.Prelude.{◌≤◌, OnOk};
ghost use Rattle.asm_random.specs.code.ResolvedRuns.{CanRun};
ghost use Rattle.asm_random.specs.code.ShorterRuns.{StaysWrong};

use crate::bad_draft::{BadDraft, wrong_run};
use crate::draft::Draft;
use crate::omission::{Omission, draft_without};
use asm_explore::ResolvedQuestion;
use std::alloc::{AllocError, Global};

/// How many steps are made for shortening a run.
const MAX_SHORTENING_STEPS: u64 = 10_000_000;

/// How many steps a draft has, at most `most`.
fn steps_of(draft: &Draft, most: u32) -> u32
    ensures { result ≤ most }
{
    match u32::try_from(draft.steps.len()) {
        Ok(len) => len.min(most),
        Err(_) => most,
    }
}

/// The run without something, instead of the run, if it goes wrong, and that in no later step: in a
/// deadlock if the run does, and else by another fault. Counts the steps that may still be made.
fn try_without(
    alloc: Global,
    specified: &ResolvedQuestion<'_>,
    run: &mut BadDraft,
    left: &mut u64,
    omission: Omission,
) -> Result<(), AllocError>
    requires { CanRun specified.now }
    ensures { OnOk result (StaysWrong specified.now run.old run.new) }
{
    let steps = run.wrong.step;
    if *left < u64::from(steps) {
        *left = 0;
        return Ok(());
    }
    *left -= u64::from(steps);
    let draft = draft_without(alloc, &run.draft, steps as usize, omission)?;
    let most = steps_of(&draft, steps);
    if let Some(better) = wrong_run(alloc, specified, draft, most)? {
        if better.wrong.is_deadlock() == run.wrong.is_deadlock() {
            *run = better;
        }
    }
    Ok(())
}

/// Whether one of some steps has a line.
fn has_line(run: &BadDraft, from: usize, to: usize) -> bool {
    let steps = run.draft.steps.as_slice();
    for k in 0..steps.len() {
        if from <= k && k < to && !steps[k].is_empty() {
            return true;
        }
    }
    false
}

/// Tries to leave out some steps, or else their lines.
fn try_block(
    alloc: Global,
    specified: &ResolvedQuestion<'_>,
    run: &mut BadDraft,
    left: &mut u64,
    from: usize,
    to: usize,
) -> Result<(), AllocError>
    requires { CanRun specified.now }
    ensures { OnOk result (StaysWrong specified.now run.old run.new) }
{
    try_without(alloc, specified, run, left, Omission::Steps { from, to })?;
    if !has_line(run, from, to) {
        return Ok(());
    }
    try_without(alloc, specified, run, left, Omission::Lines { from, to })?;
    Ok(())
}

/// Tries to leave out each `size` steps, from the last ones, or else their lines.
fn try_steps(
    alloc: Global,
    specified: &ResolvedQuestion<'_>,
    run: &mut BadDraft,
    left: &mut u64,
    size: usize,
) -> Result<(), AllocError>
    requires { CanRun specified.now }
    ensures { OnOk result (StaysWrong specified.now run.old run.new) }
{
    let mut to = run.wrong.step as usize;
    for _block in 0..run.wrong.step {
        if to == 0 {
            break;
        }
        let from = to.saturating_sub(size);
        try_block(alloc, specified, run, left, from, to)?;
        to = from.min(run.wrong.step as usize);
    }
    Ok(())
}

/// Tries to leave out each line of a step, from the last one.
fn try_lines(
    alloc: Global,
    specified: &ResolvedQuestion<'_>,
    run: &mut BadDraft,
    left: &mut u64,
    step: usize,
) -> Result<(), AllocError>
    requires { CanRun specified.now }
    ensures { OnOk result (StaysWrong specified.now run.old run.new) }
{
    let count = lines_at(run, step);
    for done in 0..count {
        let line = count - 1 - done;
        try_without(alloc, specified, run, left, Omission::Line { step, line })?;
    }
    Ok(())
}

/// How many lines a step has.
fn lines_at(run: &BadDraft, step: usize) -> usize {
    match run.draft.steps.as_slice().get(step) {
        Some(numbers) => numbers.len(),
        None => 0,
    }
}

/// How many lines the steps up to the one that goes wrong have.
fn lines_of(run: &BadDraft) -> usize {
    let mut count = 0usize;
    for step in 0..run.wrong.step {
        count = count.saturating_add(lines_at(run, step as usize));
    }
    count
}

/// Tries to leave out what may be left out, once.
fn shorten_once(
    alloc: Global,
    specified: &ResolvedQuestion<'_>,
    run: &mut BadDraft,
    left: &mut u64,
) -> Result<(), AllocError>
    requires { CanRun specified.now }
    ensures { OnOk result (StaysWrong specified.now run.old run.new) }
{
    let steps = run.wrong.step as usize;
    for halvings in 0..32u32 {
        let size = steps >> halvings;
        if size == 0 {
            break;
        }
        try_steps(alloc, specified, run, left, size)?;
    }
    let count = run.wrong.step as usize;
    for done in 0..count {
        try_lines(alloc, specified, run, left, count - 1 - done)?;
    }
    Ok(())
}

/// Makes a run that goes wrong shorter, until no step and no line can go. Returns whether it came
/// that far before too many steps were made.
pub(crate) fn shorten(
    alloc: Global,
    specified: &ResolvedQuestion<'_>,
    run: &mut BadDraft,
) -> Result<bool, AllocError>
    requires { CanRun specified.now }
    ensures { OnOk result (StaysWrong specified.now run.old run.new) }
{
    let mut left = MAX_SHORTENING_STEPS;
    for _round in 0..u32::MAX {
        let before = (run.wrong.step, lines_of(run));
        shorten_once(alloc, specified, run, &mut left)?;
        if left == 0 {
            return Ok(false);
        }
        if before == (run.wrong.step, lines_of(run)) {
            return Ok(true);
        }
    }
    Ok(false)
}
