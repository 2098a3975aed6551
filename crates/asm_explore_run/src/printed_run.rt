//! What is printed of a run that is found, with its table and its trace.
ghost use Rattle.std.specs.Prelude.{◌≡◌, ◌++◌, [], ℕ, List, IfOk, OnOk};
ghost use Rattle.asm_syntax.specs.code.Views.{spec_of};
ghost use Rattle.asm_reader.specs.ScriptText.{IsScript};
ghost use Rattle.asm_meaning.specs.Declarations.{specification_of};
ghost use Rattle.asm_meaning.specs.Run.{run};
ghost use Rattle.asm_run.specs.Headline.{IsAccepted};
ghost use Rattle.asm_explore_texts.specs.Comments.{comments, lines_of};
ghost use Rattle.asm_explore_report.specs.ShownRuns.{shown as shown_run, shown_of};
ghost use Rattle.asm_explore_table.specs.Rows.{rows_of};
ghost use Rattle.asm_explore_table.specs.Tables.{IsTable};
ghost use Rattle.asm_explore_run.specs.PrintedRun.{AreTableLines, HasTable, IsPrintedRun, table_width};
ghost use Rattle.asm_explore_run.specs.ShownRun.{AreShownAssignments};

use crate::run_end::ended;
use crate::shown_assignments::assignments_shown;
use asm_check::Checked;
use asm_explore_report::printed::printed;
use asm_explore_report::shown_run::{ShownRun, if_asked, script_of};
use asm_explore_report::trace_lines::trace_lines;
use asm_explore_table::table::{TableSettings, add_table};
use asm_explore_texts::comment::add_comments;
use asm_explore_words::fault::Unshown;
use asm_reader::{Script, one_script, one_tree, read_script};
use asm_syntax::InputError;
use std::alloc::{AllocError, Global};
use std::thread::Threads;

/// A line of the table has at most this many bytes, as one of `show` without `--width`.
const WIDTH: u32 = 100;

/// What of a run that is found stands among the comments of a report.
#[derive(Clone, Copy, Debug, PartialEq, Eq)]
pub struct RunParts {
    pub table: bool,
    pub trace: bool,
}

/// The run that is found, if there is one, of the specification with this text.
#[derive(Clone, Copy)]
pub struct FoundRun<'r> {
    pub text: &'r [u8],
    pub checked: &'r Checked,
    pub turns: u32,
    pub shown: Option<ShownRun<'r>>,
}

/// The script with this text.
fn script_in(alloc: Global, text: &[u8]) -> Result<Script, Unshown>
    ensures { IfOk result (λ script. IsScript text.now script) }
{
    match read_script(alloc, text) {
        Ok(script) => Ok(script),
        Err(InputError::Memory) => Err(Unshown::Memory),
        Err(InputError::Named(_)) => Err(Unshown::Unconfirmed),
    }
}

/// How many steps the run has.
fn steps_in(run: ShownRun<'_>) -> Result<u32, Unshown>
    ensures { IfOk result (λ steps. steps ≡ run.entry.steps) }
{
    match u32::try_from(run.steps) {
        Ok(steps) => Ok(steps),
        Err(_) => Err(Unshown::Unconfirmed),
    }
}

/// The lines of the assignments by which the run of a script ends, of at most `steps` steps.
fn assignments_of<R: Threads + Sync>(
    rt: &R,
    alloc: Global,
    found: FoundRun<'_>,
    script_text: &[u8],
    script: &Script,
    steps: u32,
) -> Result<Vec<Vec<u8>>, Unshown>
    requires accepted { IsAccepted found.text.now (spec_of found.checked.now.spec) }
    requires spelled { IsScript script_text.now script.now }
    ensures { let s = spec_of found.entry.checked.now.spec in
        IfOk result (λ lines. AreShownAssignments found.entry.text.now s found.entry.turns script.now (run (specification_of s) found.entry.turns script.now steps) (lines_of lines.items)) }
{
    one_tree();
    one_script();
    let FoundRun {
        text,
        checked,
        turns,
        ..
    } = found;
    let ended = ended(rt, alloc, text, script_text, turns, steps)?;
    let lines = assignments_shown(alloc, text, checked, script, turns, steps, &ended.end)?;
    Ok(lines)
}

/// Adds the table of the run of a script, of at most `steps` steps.
fn add_run_table(
    alloc: Global,
    out: &mut Vec<u8>,
    checked: &Checked,
    turns: u32,
    script: &Script,
    steps: u32,
) -> Result<(), AllocError>
    ensures { let s = spec_of checked.now.spec in
        OnOk result ((lines : List (List ℕ)) × (out.new.items ≡ out.old.items ++ comments lines)
        × IsTable s [] table_width (specification_of s).initial (rows_of s turns script.now steps) lines) }
{
    let settings = TableSettings {
        names: &[],
        width: WIDTH,
    };
    add_table(alloc, out, checked, turns, script, steps, settings)
}

/// The table of a run, and behind it the assignments by which it ends, as comments.
fn table_of<R: Threads + Sync>(
    rt: &R,
    alloc: Global,
    found: FoundRun<'_>,
    run: ShownRun<'_>,
) -> Result<Vec<u8>, Unshown>
    requires { IsAccepted found.text.now (spec_of found.checked.now.spec) }
    ensures { let s = spec_of found.entry.checked.now.spec in
        IfOk result (λ table. (lines : List (List ℕ)) × HasTable found.entry.text.now s found.entry.turns (shown_run run.entry) lines × (table.items ≡ comments lines)) }
{
    let (checked, turns) = (found.checked, found.turns);
    let script = script_in(alloc, run.script)?;
    let steps = steps_in(run)?;
    let assignments = assignments_of(rt, alloc, found, run.script, &script, steps)?;
    let mut table = Vec::new(alloc);
    add_run_table(alloc, &mut table, checked, turns, &script, steps)?;
    add_comments(&mut table, assignments.as_slice())?;
    Ok(table)
}

/// The table of a run, if there is one.
fn table_lines<R: Threads + Sync>(
    rt: &R,
    alloc: Global,
    found: FoundRun<'_>,
    shown: Option<ShownRun<'_>>,
) -> Result<Vec<u8>, Unshown>
    requires { IsAccepted found.text.now (spec_of found.checked.now.spec) }
    ensures { let s = spec_of found.entry.checked.now.spec in
        IfOk result (λ table. (lines : List (List ℕ)) × AreTableLines found.entry.text.now s found.entry.turns (shown_of shown.entry) lines × (table.items ≡ comments lines)) }
{
    match shown {
        Some(run) => {
            let table = table_of(rt, alloc, found, run)?;
            Ok(table)
        }
        None => Ok(Vec::new(alloc)),
    }
}

/// A first comment and others, the table and the trace of the run that is found if they are asked
/// for, and its script, if there is one.
pub fn printed_run<R: Threads + Sync>(
    rt: &R,
    alloc: Global,
    found: FoundRun<'_>,
    parts: RunParts,
    first: &[u8],
    facts: &[Vec<u8>],
) -> Result<Vec<u8>, Unshown>
    requires { IsAccepted found.text.now (spec_of found.checked.now.spec) }
    ensures { let s = spec_of found.entry.checked.now.spec in
        IfOk result (λ whole. IsPrintedRun found.entry.text.now s found.entry.turns parts.table parts.trace first.now (lines_of facts.now) (shown_of found.entry.shown) whole.items) }
{
    let (text, turns, shown) = (found.text, found.turns, found.shown);
    let table = table_lines(rt, alloc, found, if_asked(parts.table, shown))?;
    let trace = trace_lines(rt, alloc, text, turns, if_asked(parts.trace, shown))?;
    let script = script_of(shown);
    let whole = printed(
        alloc,
        first,
        facts,
        table.as_slice(),
        trace.as_slice(),
        script,
    )?;
    Ok(whole)
}
