//! Cells of the table of a page.
ghost use Rattle.std.specs.Prelude.{◌≡◌, ◌+◌, ◌++◌, [], codes, cond, OnOk};
ghost use Rattle.std.specs.List.{flat_map, join_by};
ghost use Rattle.asm_explore_texts.specs.Comments.{lines_of};
ghost use Rattle.asm_explore_table.specs.Pages.{cell, chosen_cell, class, empty_cell, empty_cells, escaped, head_cell, more_of_function as more_columns_of, number_cell};

use crate::page_columns::{PageColumn, more_of_function};
use crate::page_text::{push_decimal, push_escaped};
use std::alloc::{AllocError, Global};

/// Adds the class of a cell: the first column of a function begins a group.
fn push_class(out: &mut Vec<u8>, is_first: bool, mark: &[u8]) -> Result<(), AllocError>
    ensures { OnOk result (out.new.items ≡ out.old.items ++ class is_first mark.now) }
{
    match (is_first, mark) {
        (false, []) => Ok(()),
        (true, []) => out.extend_from_slice(b" class=\"group\""),
        (false, _) => push_mark(out, b" class=\"", mark),
        (true, _) => push_mark(out, b" class=\"group ", mark),
    }
}

/// Adds a class that ends with this mark.
fn push_mark(out: &mut Vec<u8>, before: &[u8], mark: &[u8]) -> Result<(), AllocError>
    ensures { OnOk result (out.new.items ≡ out.old.items ++ (before.now ++ (mark.now ++ codes "\""))) }
{
    out.extend_from_slice(before)?;
    out.extend_from_slice(mark)?;
    out.extend_from_slice(b"\"")
}

/// Adds the head of a column.
pub(crate) fn push_head_cell(
    out: &mut Vec<u8>,
    column: PageColumn,
    text: &[u8],
) -> Result<(), AllocError>
    ensures { OnOk result (out.new.items ≡ out.old.items ++ head_cell column text.now) }
{
    out.extend_from_slice(b"<th")?;
    push_class(out, column.is_first, b"")?;
    out.extend_from_slice(b">")?;
    push_escaped(out, text)?;
    out.extend_from_slice(b"</th>")
}

/// Adds a cell of a column, with a mark if it has one.
pub(crate) fn push_marked(
    out: &mut Vec<u8>,
    column: PageColumn,
    mark: &[u8],
    text: &[u8],
) -> Result<(), AllocError>
    ensures { OnOk result (out.new.items ≡ out.old.items ++ cell column mark.now text.now) }
{
    out.extend_from_slice(b"<td")?;
    push_class(out, column.is_first, mark)?;
    out.extend_from_slice(b">")?;
    push_escaped(out, text)?;
    out.extend_from_slice(b"</td>")
}

/// Adds the cell with the number of a step.
pub(crate) fn push_number_cell(
    alloc: Global,
    out: &mut Vec<u8>,
    number: u64,
) -> Result<(), AllocError>
    ensures { OnOk result (out.new.items ≡ out.old.items ++ number_cell number) }
{
    out.extend_from_slice(b"<td class=\"step\">")?;
    push_decimal(alloc, out, number)?;
    out.extend_from_slice(b"</td>")
}

/// Adds an empty cell over so many columns.
fn push_empty_cell(alloc: Global, out: &mut Vec<u8>, columns: usize) -> Result<(), AllocError>
    ensures { OnOk result (out.new.items ≡ out.old.items ++ empty_cell columns) }
{
    out.extend_from_slice(b"<td class=\"group\" colspan=\"")?;
    push_decimal(alloc, out, columns as u64)?;
    out.extend_from_slice(b"\"></td>")
}

/// Adds an empty cell if a head begins above this column, before these.
fn push_empty_if_first(
    alloc: Global,
    out: &mut Vec<u8>,
    column: PageColumn,
    more: &[PageColumn],
) -> Result<(), AllocError>
    ensures { OnOk result (out.new.items ≡ out.old.items ++ cond column.is_first (empty_cell (more_columns_of more.now + 1)) []) }
{
    if !column.is_first {
        return Ok(());
    }
    push_empty_cell(alloc, out, more_of_function(more) + 1)
}

/// Adds an empty cell below each head.
pub(crate) fn push_empty_cells(
    alloc: Global,
    out: &mut Vec<u8>,
    columns: &[PageColumn],
) -> Result<(), AllocError>
    ensures { OnOk result (out.new.items ≡ out.old.items ++ empty_cells columns.now) }
{
    for k in 0..columns.len() {
        push_empty_if_first(alloc, out, columns[k], &columns[k + 1..])?;
    }
    Ok(())
}

/// Adds further lines, each behind a break.
fn push_further(out: &mut Vec<u8>, lines: &[Vec<u8>]) -> Result<(), AllocError>
    ensures { OnOk result (out.new.items ≡ out.old.items ++ flat_map (λ line. codes "<br>" ++ escaped line) (lines_of lines.now)) }
{
    for k in 0..lines.len() {
        out.extend_from_slice(b"<br>")?;
        push_escaped(out, lines[k].as_slice())?;
    }
    Ok(())
}

/// Adds lines, with a break between each two.
fn push_lines(out: &mut Vec<u8>, lines: &[Vec<u8>]) -> Result<(), AllocError>
    ensures { OnOk result (out.new.items ≡ out.old.items ++ join_by escaped (codes "<br>") (lines_of lines.now)) }
{
    match lines {
        [] => Ok(()),
        [first, more @ ..] => {
            push_escaped(out, first.as_slice())?;
            push_further(out, more)
        }
    }
}

/// Adds the cell of what is chosen, if the table has it.
pub(crate) fn push_chosen_cell(
    out: &mut Vec<u8>,
    chooses: bool,
    lines: &[Vec<u8>],
) -> Result<(), AllocError>
    ensures { OnOk result (out.new.items ≡ out.old.items ++ chosen_cell chooses (lines_of lines.now)) }
{
    if !chooses {
        return Ok(());
    }
    out.extend_from_slice(b"<td>")?;
    push_lines(out, lines)?;
    out.extend_from_slice(b"</td>")
}
