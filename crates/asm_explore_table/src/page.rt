//! A run as a page.
ghost use Rattle.std.specs.Prelude.{◌≡◌, ◌<◌, ◌&&◌, ◌||◌, ◌++◌, ◌==◌, All, is_none, OnOk};
ghost use Rattle.std.specs.List.{flat_map};
ghost use Rattle.asm_state.specs.Signature.{count_of};
ghost use Rattle.asm_syntax.specs.code.Views.{spec_of};
ghost use Rattle.asm_check.specs.Shapes.{shape_of};
ghost use Rattle.asm_meaning.specs.Declarations.{specification_of};
ghost use Rattle.asm_step.specs.code.Steps.{HasMainRule, shape_in};
ghost use Rattle.asm_explore_table.specs.Pages.{page_text, paragraph, shown_table, table as page_table, table_rows};
ghost use Rattle.asm_explore_table.specs.Rows.{rows_of};
ghost use Rattle.asm_explore_table.specs.Tables.{more_columns};
ghost use Rattle.asm_explore_table.specs.code.Extents.{HasRoom, IsExtentOf};
ghost use Rattle.asm_explore_table.specs.code.RunsSaid.{words_said};
ghost use Rattle.asm_explore_table.specs.code.StepsMade.{names_said};

use crate::columns::{columns, shown};
use crate::extent::{Extent, run_extent};
use crate::limited_run::LimitedRun;
use crate::page_columns::{PageColumn, page_columns};
use crate::page_heads::push_table_head;
use crate::page_row::{PageTable, push_first_row, push_step_row};
use crate::page_text::push_paragraph;
use crate::page_words::{push_foot, push_head};
use crate::run_words::RunWords;
use crate::step_row::{StepRow, step_row};
use asm_reader::Picks;
use asm_resolve::main_rule::resolve_main;
use asm_state::state::State;
use asm_step::ResolvedSpecification;
use std::alloc::{AllocError, Global};

/// The run that a page shows: that of a specification under a script, of at most `steps` steps.
#[derive(Clone, Copy)]
struct PageRun<'r, P: Picks> {
    resolved: ResolvedSpecification<'r>,
    script: &'r P,
    steps: u32,
    is_fault: bool,
}

/// Whether the row of a step is the last one.
fn is_last(row: &StepRow, number: u64, steps: u32) -> bool
    ensures { result ≡ (is_none row.now.next || number == steps) }
{
    row.next.is_none() || number == u64::from(steps)
}

/// Whether a row shows the fault by which the run ends.
fn shows_fault(is_fault: bool, is_last: bool) -> bool
    ensures { result ≡ (is_fault && is_last) }
{
    is_fault && is_last
}

/// Adds the rows of a run.
fn add_rows<P: Picks>(
    alloc: Global,
    out: &mut Vec<u8>,
    run: &PageRun<'_, P>,
    chooses: bool,
    columns: &[PageColumn],
) -> Result<(), AllocError>
    requires main { HasMainRule run.now.resolved }
    requires within { All (λ c. c.location < count_of (shape_in run.now.resolved)) columns.now }
    ensures { let m = run.now.resolved in let s = spec_of m.checked.now.spec in
        OnOk result (out.new.items ≡ out.old.items
        ++ table_rows s chooses columns.now run.now.is_fault (specification_of s).initial (rows_of s m.turns (P.script run.now.script.now) run.now.steps)) }
{
    let checked = run.resolved.checked;
    let table = PageTable {
        checked,
        columns,
        chooses,
    };
    let mut state = State::initial(alloc, checked.signature())?;
    let is_bad = shows_fault(run.is_fault, run.steps == 0);
    push_first_row(alloc, out, &table, is_bad, &state)?;
    for done in 0..run.steps {
        let number = u64::from(done) + 1;
        let row = step_row(alloc, &run.resolved, run.script, number, &state)?;
        let is_last = is_last(&row, number, run.steps);
        let is_bad = shows_fault(run.is_fault, is_last);
        push_step_row(alloc, out, &table, is_bad, number, &state, &row)?;
        match row.into_next() {
            Some(next) => state = next,
            None => return Ok(()),
        }
    }
    Ok(())
}

/// Adds the table of a run.
fn add_page_table<P: Picks>(
    alloc: Global,
    out: &mut Vec<u8>,
    run: &PageRun<'_, P>,
    chooses: bool,
    columns: &[PageColumn],
) -> Result<(), AllocError>
    requires main { HasMainRule run.now.resolved }
    requires within { All (λ c. c.location < count_of (shape_in run.now.resolved)) columns.now }
    ensures { let m = run.now.resolved in let s = spec_of m.checked.now.spec in
        OnOk result (out.new.items ≡ out.old.items
        ++ page_table s chooses columns.now run.now.is_fault (specification_of s).initial (rows_of s m.turns (P.script run.now.script.now) run.now.steps)) }
{
    out.extend_from_slice(b"<table>\n")?;
    push_table_head(alloc, out, run.resolved.checked, chooses, columns)?;
    out.extend_from_slice(b"<tbody>\n")?;
    add_rows(alloc, out, run, chooses, columns)?;
    out.extend_from_slice(b"</tbody>\n</table>\n")
}

/// Adds how many more locations change, if there are any.
fn push_more(alloc: Global, out: &mut Vec<u8>, more: usize) -> Result<(), AllocError>
    ensures { OnOk result (out.new.items ≡ out.old.items ++ flat_map paragraph (more_columns more)) }
{
    if more == 0 {
        return Ok(());
    }
    let line = format!(in alloc; "and {more} more locations change")?;
    push_paragraph(out, line.as_bytes())
}

/// Adds the table of a run, of which this was found, and how many more locations change.
fn add_table_of<P: Picks>(
    alloc: Global,
    out: &mut Vec<u8>,
    run: &PageRun<'_, P>,
    names: &[&str],
    extent: &Extent,
) -> Result<(), AllocError>
    requires main { HasMainRule run.now.resolved }
    requires room { HasRoom (count_of (shape_in run.now.resolved)) extent.now }
    requires found { let m = run.now.resolved in let s = spec_of m.checked.now.spec in
        IsExtentOf s (specification_of s).initial extent.now (rows_of s m.turns (P.script run.now.script.now) run.now.steps) }
    ensures { let m = run.now.resolved in let s = spec_of m.checked.now.spec in
        OnOk result (out.new.items ≡ out.old.items
        ++ shown_table s (names_said names.now) run.now.is_fault (specification_of s).initial (rows_of s m.turns (P.script run.now.script.now) run.now.steps)) }
{
    let checked = run.resolved.checked;
    let all = columns(alloc, checked, names, extent)?;
    let shown = shown(names, all.as_slice());
    let columns = page_columns(alloc, checked, shown)?;
    add_page_table(alloc, out, run, extent.chooses, columns.as_slice())?;
    push_more(alloc, out, all.len() - shown.len())
}

/// Adds the table of a run, and how many more locations change.
fn add_found<P: Picks>(
    alloc: Global,
    out: &mut Vec<u8>,
    run: &PageRun<'_, P>,
    names: &[&str],
) -> Result<(), AllocError>
    requires { HasMainRule run.now.resolved }
    ensures { let m = run.now.resolved in let s = spec_of m.checked.now.spec in
        OnOk result (out.new.items ≡ out.old.items
        ++ shown_table s (names_said names.now) run.now.is_fault (specification_of s).initial (rows_of s m.turns (P.script run.now.script.now) run.now.steps)) }
{
    let extent = run_extent(alloc, &run.resolved, run.script, run.steps)?;
    add_table_of(alloc, out, run, names, &extent)
}

/// The limit of turns.
fn turns_of<P: Picks>(run: &LimitedRun<'_, P>) -> u32
    ensures { result ≡ run.now.turns }
{
    run.turns
}

/// Adds the table of a run, which ends by a fault or doesn't.
fn add_run<P: Picks>(
    alloc: Global,
    out: &mut Vec<u8>,
    run: &LimitedRun<'_, P>,
    names: &[&str],
    is_fault: bool,
) -> Result<(), AllocError>
    ensures { let s = spec_of run.now.checked.now.spec in
        OnOk result (out.new.items ≡ out.old.items
        ++ shown_table s (names_said names.now) is_fault (specification_of s).initial (rows_of s run.now.turns (P.script run.now.script.now) run.now.steps)) }
{
    let checked = run.checked;
    let code = resolve_main(alloc, checked)?;
    let page = PageRun {
        resolved: ResolvedSpecification {
            checked,
            code: &code,
            turns: turns_of(run),
        },
        script: run.script,
        steps: run.steps,
        is_fault,
    };
    let added = add_found(alloc, out, &page, names);
    drop(code);
    added
}

/// Adds the page of a run: what is said of it, and its table. Locations and functions of these
/// names are shown, or each location that changes if there are none.
pub fn add_page<P: Picks>(
    alloc: Global,
    out: &mut Vec<u8>,
    run: &LimitedRun<'_, P>,
    names: &[&str],
    words: &RunWords<'_>,
) -> Result<(), AllocError>
    ensures { let s = spec_of run.now.checked.now.spec in
        OnOk result (out.new.items ≡ out.old.items
        ++ page_text s (names_said names.now) (words_said words.now) (specification_of s).initial (rows_of s run.now.turns (P.script run.now.script.now) run.now.steps)) }
{
    push_head(out, words)?;
    add_run(alloc, out, run, names, words.is_fault)?;
    push_foot(out, words)
}
