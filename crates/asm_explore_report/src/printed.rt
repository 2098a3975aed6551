//! What is printed: a comment that says what is found, other comments, and a script.
//!
//! A text that would be too long for a script is made again without the lines of the trace, then
//! without the table, then without the other comments, and then without the script.
ghost use Rattle.std.specs.Prelude.{◌≡◌, ◌∷◌, ◌++◌, ◌<◌, ◌≤◌, ℕ, List, length, codes, IfOk, IsFalse, IsTrue, OnOk};
ghost use Rattle.std.specs.List.{flat_map};
ghost use Rattle.asm_reader.specs.ScriptText.{max_script};
ghost use Rattle.asm_explore_texts.specs.Comments.{comments as comments_of, lines_of};
ghost use Rattle.asm_explore_report.specs.Printed.{IsPrinted, IsReportText, behind_first as text_behind, left_out as lines_left, named, names_of, no_comments, no_script, no_table, no_trace, part_name};

use asm_explore_texts::comment::{add_comments, comments};
use asm_reader::MAX_SCRIPT;
use std::alloc::{AllocError, Global};

/// A part of a report that may be left out.
#[derive(Clone, Copy, Debug, PartialEq, Eq)]
pub(crate) enum Part {
    Trace,
    Table,
    Comments,
    Script,
}

impl Part {
    /// What the part is called.
    fn name(self) -> &'static str
        ensures { result.now ≡ part_name self }
    {
        match self {
            Part::Trace => "the trace",
            Part::Table => "the table",
            Part::Comments => "the comments",
            Part::Script => "the script",
        }
    }
}

/// Adds a part that consists of these lines, if there are any.
fn add_lines(parts: &mut Vec<Part>, part: Part, lines: &[Vec<u8>]) -> Result<(), AllocError>
    ensures { OnOk result (names_of parts.new.items ≡ names_of parts.old.items ++ named (part_name part) (lines_of lines.now)) }
{
    if !lines.is_empty() {
        parts.push(part)?;
    }
    Ok(())
}

/// Adds a part that has these bytes, if there are any.
fn add_bytes(parts: &mut Vec<Part>, part: Part, bytes: &[u8]) -> Result<(), AllocError>
    ensures { OnOk result (names_of parts.new.items ≡ names_of parts.old.items ++ named (part_name part) bytes.now) }
{
    if !bytes.is_empty() {
        parts.push(part)?;
    }
    Ok(())
}

/// The line that says that these parts are left out, if there are any.
pub(crate) fn left_out(alloc: Global, parts: &[Part]) -> Result<Vec<Vec<u8>>, AllocError>
    ensures { IfOk result (λ lines. lines_of lines.items ≡ lines_left (names_of parts.now)) }
{
    let mut lines = Vec::new(alloc);
    if let [first, others @ ..] = parts {
        let mut line = Vec::from_slice(alloc, b"left out: ")?;
        line.extend_from_slice(first.name().as_bytes())?;
        add_names(&mut line, others)?;
        lines.push(line)?;
    }
    Ok(lines)
}

/// Adds the names of parts, each after a comma.
fn add_names(line: &mut Vec<u8>, parts: &[Part]) -> Result<(), AllocError>
    ensures { OnOk result (line.new.items ≡ line.old.items ++ flat_map (λ other. codes ", " ++ other) (names_of parts.now)) }
{
    for part in parts {
        line.extend_from_slice(b", ")?;
        line.extend_from_slice(part.name().as_bytes())?;
    }
    Ok(())
}

/// A first comment, others, and after them a script.
pub(crate) fn text_behind_first(
    alloc: Global,
    first: &[u8],
    others: &[Vec<u8>],
    script: &[u8],
) -> Result<Vec<u8>, AllocError>
    ensures { IfOk result (λ text. text.items ≡ text_behind first.now (lines_of others.now) script.now) }
{
    let mut text = comments(alloc, first, others)?;
    text.extend_from_slice(script)?;
    Ok(text)
}

/// A first comment, others, a table, further comments, and after them a script.
fn with_table(
    alloc: Global,
    first: &[u8],
    facts: &[Vec<u8>],
    table: &[u8],
    more: &[Vec<u8>],
    script: &[u8],
) -> Result<Vec<u8>, AllocError>
    ensures { (lines : List (List ℕ)) → table.now ≡ comments_of lines →
        IfOk result (λ text. text.items ≡ text_behind first.now (lines_of facts.now ++ (lines ++ lines_of more.now)) script.now) }
{
    let mut text = comments(alloc, first, facts)?;
    text.extend_from_slice(table)?;
    add_comments(&mut text, more)?;
    text.extend_from_slice(script)?;
    Ok(text)
}

/// The trace among what is left out, if it has any lines.
fn trace_part(alloc: Global, trace: &[Vec<u8>]) -> Result<Vec<Part>, AllocError>
    ensures { IfOk result (λ parts. names_of parts.items ≡ named (codes "the trace") (lines_of trace.now)) }
{
    let mut parts = Vec::new(alloc);
    add_lines(&mut parts, Part::Trace, trace)?;
    Ok(parts)
}

/// The trace and the table among what is left out, if they have any lines.
fn table_parts(alloc: Global, table: &[u8], trace: &[Vec<u8>]) -> Result<Vec<Part>, AllocError>
    ensures { IfOk result (λ parts. names_of parts.items ≡ named (codes "the trace") (lines_of trace.now) ++ named (codes "the table") table.now) }
{
    let mut parts = trace_part(alloc, trace)?;
    add_bytes(&mut parts, Part::Table, table)?;
    Ok(parts)
}

/// The text without the trace.
fn without_trace(
    alloc: Global,
    first: &[u8],
    facts: &[Vec<u8>],
    table: &[u8],
    trace: &[Vec<u8>],
    script: &[u8],
) -> Result<Vec<u8>, AllocError>
    ensures { (lines : List (List ℕ)) → table.now ≡ comments_of lines →
        IfOk result (λ text. text.items ≡ text_behind first.now (lines_of facts.now ++ (lines ++ lines_left (no_trace first.now (lines_of facts.now) lines (lines_of trace.now) script.now))) script.now) }
{
    let parts = trace_part(alloc, trace)?;
    let line = left_out(alloc, parts.as_slice())?;
    with_table(alloc, first, facts, table, line.as_slice(), script)
}

/// The text without the trace and the table.
fn without_table(
    alloc: Global,
    first: &[u8],
    facts: &[Vec<u8>],
    table: &[u8],
    trace: &[Vec<u8>],
    script: &[u8],
) -> Result<Vec<u8>, AllocError>
    ensures { (lines : List (List ℕ)) → table.now ≡ comments_of lines →
        IfOk result (λ text. text.items ≡ text_behind first.now (lines_of facts.now ++ lines_left (no_table first.now (lines_of facts.now) lines (lines_of trace.now) script.now)) script.now) }
{
    let parts = table_parts(alloc, table, trace)?;
    let line = left_out(alloc, parts.as_slice())?;
    with_table(alloc, first, facts, b"", line.as_slice(), script)
}

/// The text without the trace, the table and the other comments behind the first.
fn without_comments(
    alloc: Global,
    first: &[u8],
    facts: &[Vec<u8>],
    table: &[u8],
    trace: &[Vec<u8>],
    script: &[u8],
) -> Result<Vec<u8>, AllocError>
    ensures { (lines : List (List ℕ)) → table.now ≡ comments_of lines →
        IfOk result (λ text. text.items ≡ text_behind first.now (lines_left (no_comments first.now (lines_of facts.now) lines (lines_of trace.now) script.now)) script.now) }
{
    let mut parts = table_parts(alloc, table, trace)?;
    add_lines(&mut parts, Part::Comments, facts)?;
    let line = left_out(alloc, parts.as_slice())?;
    text_behind_first(alloc, first, line.as_slice(), script)
}

/// The first line, and what is left out.
fn first_alone(
    alloc: Global,
    first: &[u8],
    facts: &[Vec<u8>],
    table: &[u8],
    trace: &[Vec<u8>],
    script: &[u8],
) -> Result<Vec<u8>, AllocError>
    ensures { (lines : List (List ℕ)) → table.now ≡ comments_of lines →
        IfOk result (λ text. text.items ≡ comments_of (first.now ∷ lines_left (no_script first.now (lines_of facts.now) lines (lines_of trace.now) script.now))) }
{
    let mut parts = table_parts(alloc, table, trace)?;
    add_lines(&mut parts, Part::Comments, facts)?;
    add_bytes(&mut parts, Part::Script, script)?;
    let line = left_out(alloc, parts.as_slice())?;
    comments(alloc, first, line.as_slice())
}

/// Whether a text is no longer than a script may be.
pub(crate) fn fits(text: &Vec<u8>) -> bool
    ensures yes { IsTrue result → length text.now.items ≤ max_script }
    ensures no { IsFalse result → max_script < length text.now.items }
{
    text.len() <= MAX_SCRIPT
}

/// A first comment and others, a table, the lines of a trace, and a script; of what would be too
/// long for a script, the longest of the texts that leave something out.
fn report_text(
    alloc: Global,
    first: &[u8],
    facts: &[Vec<u8>],
    table: &[u8],
    trace: &[Vec<u8>],
    script: &[u8],
) -> Result<Vec<u8>, AllocError>
    ensures { (lines : List (List ℕ)) → table.now ≡ comments_of lines →
        IfOk result (λ text. IsReportText first.now (lines_of facts.now) lines (lines_of trace.now) script.now text.items) }
{
    let whole = with_table(alloc, first, facts, table, trace, script)?;
    if fits(&whole) {
        return Ok(whole);
    }
    drop(whole);
    let shorter = without_trace(alloc, first, facts, table, trace, script)?;
    if fits(&shorter) {
        return Ok(shorter);
    }
    drop(shorter);
    let plain = without_table(alloc, first, facts, table, trace, script)?;
    if fits(&plain) {
        return Ok(plain);
    }
    drop(plain);
    let bare = without_comments(alloc, first, facts, table, trace, script)?;
    if fits(&bare) {
        return Ok(bare);
    }
    drop(bare);
    first_alone(alloc, first, facts, table, trace, script)
}

/// A first comment and others, a table that is given as comments, the lines of a trace, and a
/// script.
pub fn printed(
    alloc: Global,
    first: &[u8],
    facts: &[Vec<u8>],
    table: &[u8],
    trace: &[Vec<u8>],
    script: &[u8],
) -> Result<Vec<u8>, AllocError>
    ensures { (lines : List (List ℕ)) → table.now ≡ comments_of lines →
        IfOk result (λ whole. IsPrinted first.now (lines_of facts.now) lines (lines_of trace.now) script.now whole.items) }
{
    let whole = report_text(alloc, first, facts, table, trace, script)?;
    Ok(whole)
}
