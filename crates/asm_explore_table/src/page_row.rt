//! The rows of the table of a page.
ghost use Rattle.std.specs.Prelude.{◌≡◌, ◌<◌, ◌++◌, All, option_map, IfSome, OnOk};
ghost use Rattle.std.specs.List.{flat_map};
ghost use Rattle.asm_state.specs.Signature.{count_of, state_of};
ghost use Rattle.asm_state.specs.code.Contents.{IsStateOf};
ghost use Rattle.asm_syntax.specs.code.Views.{spec_of};
ghost use Rattle.asm_check.specs.Shapes.{shape_of};
ghost use Rattle.asm_explore_texts.specs.Comments.{lines_of};
ghost use Rattle.asm_explore_table.specs.Pages.{first_cell, first_row, mark_of, row_begun, step_cell, step_cells, step_row};
ghost use Rattle.asm_explore_table.specs.code.StepsMade.{row_said};

use crate::cells::{is_same_value, push_shown};
use crate::chosen_lines::chosen_lines;
use crate::page_cells::{push_chosen_cell, push_empty_cells, push_marked, push_number_cell};
use crate::page_columns::PageColumn;
use crate::page_text::push_bad_if;
use crate::step_row::StepRow;
use asm_check::Checked;
use asm_state::state::State;
use std::alloc::{AllocError, Global};

/// What the table of a page shows: these columns, and what is chosen if some step chooses.
#[derive(Clone, Copy)]
pub(crate) struct PageTable<'p> {
    pub(crate) checked: &'p Checked,
    pub(crate) columns: &'p [PageColumn],
    pub(crate) chooses: bool,
}

/// Adds the values of the columns in the first state.
fn push_first_cells(
    alloc: Global,
    out: &mut Vec<u8>,
    table: &PageTable<'_>,
    state: &State,
) -> Result<(), AllocError>
    requires within { All (λ c. c.location < count_of (shape_of (spec_of table.now.checked.now.spec))) table.now.columns.now }
    requires state { IsStateOf (shape_of (spec_of table.now.checked.now.spec)) state.now }
    ensures { let s = spec_of table.now.checked.now.spec in
        OnOk result (out.new.items ≡ out.old.items ++ flat_map (first_cell s (state_of (shape_of s) state.now)) table.now.columns.now) }
{
    let columns = table.columns;
    let mut text = Vec::new(alloc);
    for k in 0..columns.len() {
        text.clear();
        push_shown(&mut text, table.checked, state.content(columns[k].location))?;
        push_marked(out, columns[k], b"", text.as_slice())?;
    }
    Ok(())
}

/// How a value is marked.
fn mark(is_same: bool) -> &'static [u8]
    ensures { result.now ≡ mark_of is_same }
{
    if is_same { b"same" } else { b"new" }
}

/// Adds the values of these columns after a step.
fn push_cells(
    alloc: Global,
    out: &mut Vec<u8>,
    table: &PageTable<'_>,
    before: &State,
    after: &State,
) -> Result<(), AllocError>
    requires within { All (λ c. c.location < count_of (shape_of (spec_of table.now.checked.now.spec))) table.now.columns.now }
    requires before { IsStateOf (shape_of (spec_of table.now.checked.now.spec)) before.now }
    requires after { IsStateOf (shape_of (spec_of table.now.checked.now.spec)) after.now }
    ensures { let s = spec_of table.now.checked.now.spec in
        OnOk result (out.new.items ≡ out.old.items ++ flat_map (step_cell s (state_of (shape_of s) before.now) (state_of (shape_of s) after.now)) table.now.columns.now) }
{
    let columns = table.columns;
    let mut text = Vec::new(alloc);
    for k in 0..columns.len() {
        let n = columns[k].location;
        text.clear();
        push_shown(&mut text, table.checked, after.content(n))?;
        let mark = mark(is_same_value(before.content(n), after.content(n)));
        push_marked(out, columns[k], mark, text.as_slice())?;
    }
    Ok(())
}

/// Adds the cells of a step: empty ones if the run ends in it.
fn push_step_cells(
    alloc: Global,
    out: &mut Vec<u8>,
    table: &PageTable<'_>,
    before: &State,
    after: &Option<State>,
) -> Result<(), AllocError>
    requires within { All (λ c. c.location < count_of (shape_of (spec_of table.now.checked.now.spec))) table.now.columns.now }
    requires before { IsStateOf (shape_of (spec_of table.now.checked.now.spec)) before.now }
    requires after { IfSome after.now (IsStateOf (shape_of (spec_of table.now.checked.now.spec))) }
    ensures { let s = spec_of table.now.checked.now.spec in
        OnOk result (out.new.items ≡ out.old.items ++ step_cells s (state_of (shape_of s) before.now) (option_map (state_of (shape_of s)) after.now) table.now.columns.now) }
{
    match after {
        Some(after) => push_cells(alloc, out, table, before, after),
        None => push_empty_cells(alloc, out, table.columns),
    }
}

/// Adds how a row begins: its class, its number, and what is chosen.
fn push_begun(
    alloc: Global,
    out: &mut Vec<u8>,
    chooses: bool,
    is_bad: bool,
    number: u64,
    lines: &[Vec<u8>],
) -> Result<(), AllocError>
    ensures { OnOk result (out.new.items ≡ out.old.items ++ row_begun chooses is_bad number (lines_of lines.now)) }
{
    out.extend_from_slice(b"<tr")?;
    push_bad_if(out, is_bad)?;
    out.extend_from_slice(b">")?;
    push_number_cell(alloc, out, number)?;
    push_chosen_cell(out, chooses, lines)
}

/// Adds the row of the first state.
pub(crate) fn push_first_row(
    alloc: Global,
    out: &mut Vec<u8>,
    table: &PageTable<'_>,
    is_bad: bool,
    state: &State,
) -> Result<(), AllocError>
    requires within { All (λ c. c.location < count_of (shape_of (spec_of table.now.checked.now.spec))) table.now.columns.now }
    requires state { IsStateOf (shape_of (spec_of table.now.checked.now.spec)) state.now }
    ensures { let s = spec_of table.now.checked.now.spec in
        OnOk result (out.new.items ≡ out.old.items ++ first_row s table.now.chooses table.now.columns.now is_bad (state_of (shape_of s) state.now)) }
{
    push_begun(alloc, out, table.chooses, is_bad, 0, &[])?;
    push_first_cells(alloc, out, table, state)?;
    out.extend_from_slice(b"</tr>\n")
}

/// Adds the row of a step.
pub(crate) fn push_step_row(
    alloc: Global,
    out: &mut Vec<u8>,
    table: &PageTable<'_>,
    is_bad: bool,
    number: u64,
    before: &State,
    row: &StepRow,
) -> Result<(), AllocError>
    requires within { All (λ c. c.location < count_of (shape_of (spec_of table.now.checked.now.spec))) table.now.columns.now }
    requires before { IsStateOf (shape_of (spec_of table.now.checked.now.spec)) before.now }
    requires after { IfSome row.now.next (IsStateOf (shape_of (spec_of table.now.checked.now.spec))) }
    ensures { let s = spec_of table.now.checked.now.spec in
        OnOk result (out.new.items ≡ out.old.items ++ step_row s table.now.chooses table.now.columns.now is_bad number (row_said (shape_of s) before.now row.now)) }
{
    let lines = chosen_lines(alloc, table.checked, row.asked.as_slice())?;
    push_begun(alloc, out, table.chooses, is_bad, number, lines.as_slice())?;
    push_step_cells(alloc, out, table, before, &row.next)?;
    out.extend_from_slice(b"</tr>\n")
}
