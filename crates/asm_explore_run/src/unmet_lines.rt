//! Lines of a script that name no choice of a run.
ghost use Rattle.std.specs.Prelude.{◌≡◌, ◌∷◌, ◌++◌, [], cond, false, map, true, IfOk, OnOk};
ghost use Rattle.std.specs.Str.Lines.{strip_carriage_return};
ghost use Rattle.asm_reader.specs.ScriptLines.{SaidLine};
ghost use Rattle.asm_explore.specs.WrittenScripts.{lines_said};
ghost use Rattle.asm_explore_texts.specs.Comments.{lines_of};
ghost use Rattle.asm_explore_run.specs.UnmetLines.{is_met, unmet_line as text_of_unmet, unmet_lines as texts_of_unmet};
ghost use Rattle.asm_explore_run.specs.code.LineKeys.{has_line, has_said, have_lines, left_from};

use crate::line_keys::LineKeys;
use asm_explore::ScriptLine;
use asm_reader::script_line::{is_skipped, line_said, parts, without_return};
use std::alloc::{AllocError, Global};

/// What is said of a line with this number that names no choice.
fn unmet_line(alloc: Global, number: usize, line: &[u8]) -> Result<Vec<u8>, AllocError>
    ensures { IfOk result (λ said. said.items ≡ text_of_unmet number line.now) }
{
    let mut said = Vec::new(alloc);
    said.extend_from_slice(b"no choose met line ")?;
    said.extend_from_slice(format!(in alloc; "{number}")?.as_bytes())?;
    said.extend_from_slice(b" of the script: ")?;
    said.extend_from_slice(line)?;
    Ok(said)
}

/// Adds a line, if it says something.
fn add_line(alloc: Global, keys: &mut LineKeys, line: &[u8]) -> Result<(), AllocError>
    ensures kept { OnOk result ((other : SaidLine) → has_line other keys.old ≡ true → has_line other keys.new ≡ true) }
    ensures added { OnOk result (have_lines keys.new (line.now ∷ []) ≡ true) }
{
    if is_skipped(line) {
        return Ok(());
    }
    if let Some(said) = line_said(alloc, line)? {
        keys.add(alloc, &said)?;
    }
    Ok(())
}

/// The lines of a script that say something.
fn keys_of(alloc: Global, lines: &[&[u8]]) -> Result<LineKeys, AllocError>
    ensures { IfOk result (λ keys. have_lines keys (map (λ l. strip_carriage_return l.now) lines.now) ≡ true) }
{
    let mut keys = LineKeys::new(alloc);
    for i in 0..lines.len() {
        add_line(alloc, &mut keys, without_return(lines[i]))?;
    }
    Ok(keys)
}

/// Removes the lines that are met by choices that are made.
fn remove_met(alloc: Global, keys: &mut LineKeys, made: &[ScriptLine<'_>]) -> Result<(), AllocError>
    ensures { OnOk result ((line : SaidLine) → has_line line keys.new ≡ cond (is_met (lines_said made.now) line) false (has_line line keys.old)) }
{
    if keys.is_empty() {
        return Ok(());
    }
    for k in 0..made.len() {
        keys.remove_met(alloc, &made[k])?;
    }
    Ok(())
}

/// Whether a line says something, and is among these.
fn is_among(alloc: Global, keys: &LineKeys, line: &[u8]) -> Result<bool, AllocError>
    ensures { IfOk result (λ is. is ≡ has_said line.now keys.now) }
{
    if is_skipped(line) {
        return Ok(false);
    }
    match line_said(alloc, line)? {
        Some(said) => keys.has(alloc, &said),
        None => Ok(false),
    }
}

/// Adds what is said of a line with this number, if it is among these.
fn add_if_left(
    alloc: Global,
    keys: &LineKeys,
    number: usize,
    line: &[u8],
    said: &mut Vec<Vec<u8>>,
) -> Result<(), AllocError>
    ensures { OnOk result (lines_of said.new.items ≡ lines_of said.old.items ++ cond (has_said line.now keys.now) (text_of_unmet number line.now ∷ []) []) }
{
    let is_left = is_among(alloc, keys, line)?;
    if is_left {
        let comment = unmet_line(alloc, number, line)?;
        said.push(comment)?;
    }
    Ok(())
}

/// What is said of those lines of a script that are among these.
fn said_of_left(alloc: Global, keys: &LineKeys, lines: &[&[u8]]) -> Result<Vec<Vec<u8>>, AllocError>
    ensures { IfOk result (λ said. lines_of said.items ≡ left_from 1 keys.now (map (λ l. strip_carriage_return l.now) lines.now)) }
{
    let mut said = Vec::new(alloc);
    for i in 0..lines.len() {
        add_if_left(alloc, keys, i + 1, without_return(lines[i]), &mut said)?;
    }
    Ok(said)
}

/// Of each line of a script that names no choice of a run what is said of it, in the order of the
/// text. The choices are given as lines.
pub(crate) fn unmet_lines(
    alloc: Global,
    script: &[u8],
    made: &[ScriptLine<'_>],
) -> Result<Vec<Vec<u8>>, AllocError>
    ensures { IfOk result (λ unmet. lines_of unmet.items ≡ texts_of_unmet script.now (lines_said made.now)) }
{
    let lines = parts(alloc, script, b'\n')?;
    let mut keys = keys_of(alloc, lines.as_slice())?;
    remove_met(alloc, &mut keys, made)?;
    let unmet = said_of_left(alloc, &keys, lines.as_slice())?;
    Ok(unmet)
}
