//! The lines of a row.
ghost use Rattle.std.specs.Prelude.{◌≡◌, ◌<◌, ◌++◌, All, map, option_map, IfOk, IfSome, OnOk};
ghost use Rattle.asm_state.specs.Signature.{count_of, state_of};
ghost use Rattle.asm_state.specs.code.Contents.{IsStateOf};
ghost use Rattle.asm_syntax.specs.code.Views.{spec_of};
ghost use Rattle.asm_check.specs.Shapes.{shape_of};
ghost use Rattle.asm_explore_texts.specs.Comments.{comment, comments, lines_of};
ghost use Rattle.asm_explore_table.specs.Lines.{blanks, placed};
ghost use Rattle.asm_explore_table.specs.Tables.{begun as line_begun, cell as cell_text, first_row, further_lines, lines_with, numbered, row_lines, shown_value, with_cells, with_chosen, with_row};
ghost use Rattle.asm_explore_table.specs.code.StepsMade.{IsWithin, row_said};

use crate::block::{Block, Column};
use crate::cells::{push_cell, push_shown};
use crate::chosen_lines::chosen_lines;
use crate::line::{align, place, push_blanks};
use crate::step_row::StepRow;
use asm_check::Checked;
use asm_explore_texts::comment::add_comment;
use asm_state::state::State;
use std::alloc::{AllocError, Global};

/// Where rows are written: a block of columns, behind step numbers of this width.
#[derive(Clone, Copy)]
pub(crate) struct Frame<'b> {
    pub(crate) checked: &'b Checked,
    pub(crate) width: usize,
    pub(crate) block: &'b Block,
}

/// Adds the values of the columns in a state.
fn add_first_cells(
    alloc: Global,
    line: &mut Vec<u8>,
    checked: &Checked,
    columns: &[Column],
    state: &State,
) -> Result<(), AllocError>
    requires within { All (λ c. c.location < count_of (shape_of (spec_of checked.now.spec))) columns.now }
    requires state { IsStateOf (shape_of (spec_of checked.now.spec)) state.now }
    ensures { let s = spec_of checked.now.spec in
        OnOk result (line.new.items ≡ with_cells (λ n. shown_value s (state_of (shape_of s) state.now (numbered s n))) line.old.items columns.now) }
{
    let mut cell = Vec::new(alloc);
    for k in 0..columns.len() {
        cell.clear();
        push_shown(&mut cell, checked, state.content(columns[k].location))?;
        place(line, columns[k].start, cell.as_slice())?;
    }
    Ok(())
}

/// Adds the cells of the columns after a step.
fn add_cells(
    alloc: Global,
    line: &mut Vec<u8>,
    checked: &Checked,
    columns: &[Column],
    before: &State,
    after: &State,
) -> Result<(), AllocError>
    requires within { All (λ c. c.location < count_of (shape_of (spec_of checked.now.spec))) columns.now }
    requires before { IsStateOf (shape_of (spec_of checked.now.spec)) before.now }
    requires after { IsStateOf (shape_of (spec_of checked.now.spec)) after.now }
    ensures { let s = spec_of checked.now.spec in
        OnOk result (line.new.items ≡ with_cells (cell_text s (state_of (shape_of s) before.now) (state_of (shape_of s) after.now)) line.old.items columns.now) }
{
    let mut cell = Vec::new(alloc);
    for k in 0..columns.len() {
        cell.clear();
        push_cell(&mut cell, checked, before, after, columns[k].location)?;
        place(line, columns[k].start, cell.as_slice())?;
    }
    Ok(())
}

/// Adds a text where the column of what is chosen begins, if the block has it.
fn add_chosen(line: &mut Vec<u8>, block: &Block, text: &[u8]) -> Result<(), AllocError>
    ensures { OnOk result (line.new.items ≡ with_chosen block.now.chosen line.old.items text.now) }
{
    match block.chosen {
        Some(start) => place(line, start, text),
        None => Ok(()),
    }
}

/// A line with the number of a step, and with a line of what is chosen in it.
fn begun(alloc: Global, frame: Frame<'_>, number: u64, chosen: &[u8]) -> Result<Vec<u8>, AllocError>
    ensures { IfOk result (λ line. line.items ≡ line_begun (spec_of frame.entry.checked.now.spec) frame.entry.width frame.entry.block.now number chosen.now) }
{
    let mut line = Vec::new(alloc);
    let digits = format!(in alloc; "{number}")?;
    align(&mut line, frame.width, digits.as_bytes())?;
    add_chosen(&mut line, frame.block, chosen)?;
    Ok(line)
}

/// Adds the row of the first state.
pub(crate) fn add_first_row(
    alloc: Global,
    out: &mut Vec<u8>,
    frame: Frame<'_>,
    state: &State,
) -> Result<(), AllocError>
    requires within { IsWithin (count_of (shape_of (spec_of frame.checked.now.spec))) frame.block.now }
    requires state { IsStateOf (shape_of (spec_of frame.checked.now.spec)) state.now }
    ensures { let s = spec_of frame.entry.checked.now.spec in
        OnOk result (out.new.items ≡ out.old.items ++ comment (first_row s frame.entry.width frame.entry.block.now (state_of (shape_of s) state.now))) }
{
    let mut line = begun(alloc, frame, 0, b"")?;
    let columns = frame.block.columns.as_slice();
    add_first_cells(alloc, &mut line, frame.checked, columns, state)?;
    add_comment(out, line.as_slice())
}

/// A further line of what is chosen in a step, which begins here.
fn further(alloc: Global, width: usize, start: usize, text: &[u8]) -> Result<Vec<u8>, AllocError>
    ensures { IfOk result (λ line. line.items ≡ placed (blanks width) start text.now) }
{
    let mut line = Vec::new(alloc);
    push_blanks(&mut line, width)?;
    place(&mut line, start, text)?;
    Ok(line)
}

/// Adds the further lines of what is chosen in a step, which begin here.
fn add_further_at(
    alloc: Global,
    out: &mut Vec<u8>,
    width: usize,
    start: usize,
    lines: &[Vec<u8>],
) -> Result<(), AllocError>
    ensures { OnOk result (out.new.items ≡ out.old.items ++ comments (map (λ text. placed (blanks width) start text) (lines_of lines.now))) }
{
    for k in 0..lines.len() {
        let line = further(alloc, width, start, lines[k].as_slice())?;
        add_comment(out, line.as_slice())?;
    }
    Ok(())
}

/// Adds the further lines of what is chosen in a step, if the block has that.
fn add_further(
    alloc: Global,
    out: &mut Vec<u8>,
    frame: Frame<'_>,
    lines: &[Vec<u8>],
) -> Result<(), AllocError>
    ensures { let s = spec_of frame.entry.checked.now.spec in
        OnOk result (out.new.items ≡ out.old.items ++ comments (further_lines s frame.entry.width frame.entry.block.now frame.entry.block.now.chosen (lines_of lines.now))) }
{
    match frame.block.chosen {
        Some(start) => add_further_at(alloc, out, frame.width, start, lines),
        None => Ok(()),
    }
}

/// Adds the cells of a step, unless the run ends in it.
fn add_step_cells(
    alloc: Global,
    line: &mut Vec<u8>,
    frame: Frame<'_>,
    before: &State,
    after: &Option<State>,
) -> Result<(), AllocError>
    requires within { IsWithin (count_of (shape_of (spec_of frame.checked.now.spec))) frame.block.now }
    requires before { IsStateOf (shape_of (spec_of frame.checked.now.spec)) before.now }
    requires after { IfSome after.now (IsStateOf (shape_of (spec_of frame.checked.now.spec))) }
    ensures { let s = spec_of frame.entry.checked.now.spec in let shape = shape_of s in
        OnOk result (line.new.items ≡ with_row s frame.entry.width frame.entry.block.now line.old.items (state_of shape before.now) (option_map (state_of shape) after.now)) }
{
    match after {
        Some(after) => {
            let columns = frame.block.columns.as_slice();
            add_cells(alloc, line, frame.checked, columns, before, after)
        }
        None => Ok(()),
    }
}

/// Adds the row of a step of which this is chosen, in lines.
fn add_row_with(
    alloc: Global,
    out: &mut Vec<u8>,
    frame: Frame<'_>,
    number: u64,
    lines: &[Vec<u8>],
    before: &State,
    after: &Option<State>,
) -> Result<(), AllocError>
    requires within { IsWithin (count_of (shape_of (spec_of frame.checked.now.spec))) frame.block.now }
    requires before { IsStateOf (shape_of (spec_of frame.checked.now.spec)) before.now }
    requires after { IfSome after.now (IsStateOf (shape_of (spec_of frame.checked.now.spec))) }
    ensures { let s = spec_of frame.entry.checked.now.spec in let shape = shape_of s in
        OnOk result (out.new.items ≡ out.old.items ++ comments (lines_with s frame.entry.width frame.entry.block.now number (lines_of lines.now) (state_of shape before.now) (option_map (state_of shape) after.now))) }
{
    match lines {
        [] => {
            let mut line = begun(alloc, frame, number, b"")?;
            add_step_cells(alloc, &mut line, frame, before, after)?;
            add_comment(out, line.as_slice())
        }
        [first, more @ ..] => {
            let mut line = begun(alloc, frame, number, first.as_slice())?;
            add_step_cells(alloc, &mut line, frame, before, after)?;
            add_comment(out, line.as_slice())?;
            add_further(alloc, out, frame, more)
        }
    }
}

/// Adds the row of a step: what is chosen in it, and its cells if the run goes on.
pub(crate) fn add_row(
    alloc: Global,
    out: &mut Vec<u8>,
    frame: Frame<'_>,
    number: u64,
    before: &State,
    row: &StepRow,
) -> Result<(), AllocError>
    requires within { IsWithin (count_of (shape_of (spec_of frame.checked.now.spec))) frame.block.now }
    requires before { IsStateOf (shape_of (spec_of frame.checked.now.spec)) before.now }
    requires after { IfSome row.now.next (IsStateOf (shape_of (spec_of frame.checked.now.spec))) }
    ensures { let s = spec_of frame.entry.checked.now.spec in
        OnOk result (out.new.items ≡ out.old.items ++ comments (row_lines s frame.entry.width frame.entry.block.now number (row_said (shape_of s) before.now row.now))) }
{
    let lines = chosen_lines(alloc, frame.checked, row.asked.as_slice())?;
    add_row_with(
        alloc,
        out,
        frame,
        number,
        lines.as_slice(),
        before,
        &row.next,
    )
}
