//! The heads of the table of a page.
ghost use Rattle.std.specs.Prelude.{◌≡◌, ◌+◌, ◌<◌, ◌++◌, [], All, cond, OnOk};
ghost use Rattle.std.specs.List.{flat_map};
ghost use Rattle.asm_state.specs.Signature.{count_of};
ghost use Rattle.asm_syntax.specs.code.Views.{spec_of};
ghost use Rattle.asm_check.specs.Shapes.{shape_of};
ghost use Rattle.asm_explore_table.specs.Pages.{arguments_cell, arguments_row, chosen_head, function_head as head_of_function, function_heads, functions_row, more_of_function as more_columns_of, rows_spanned, step_head, table_head};

use crate::heads::{arguments_head, function_at, function_head};
use crate::page_cells::push_head_cell;
use crate::page_columns::{PageColumn, more_of_function};
use crate::page_text::{push_decimal, push_escaped};
use asm_check::Checked;
use std::alloc::{AllocError, Global};

/// Adds that a head spans both rows, which there are if there is a column.
fn push_rows_spanned(out: &mut Vec<u8>, columns: &[PageColumn]) -> Result<(), AllocError>
    ensures { OnOk result (out.new.items ≡ out.old.items ++ rows_spanned columns.now) }
{
    match columns {
        [] => Ok(()),
        [..] => out.extend_from_slice(b" rowspan=\"2\""),
    }
}

/// Adds the head of the steps.
fn push_step_head(out: &mut Vec<u8>, columns: &[PageColumn]) -> Result<(), AllocError>
    ensures { OnOk result (out.new.items ≡ out.old.items ++ step_head columns.now) }
{
    out.extend_from_slice(b"<th class=\"step\"")?;
    push_rows_spanned(out, columns)?;
    out.extend_from_slice(b">step</th>")
}

/// Adds the head of what is chosen, if the table has it.
fn push_chosen_head(
    out: &mut Vec<u8>,
    chooses: bool,
    columns: &[PageColumn],
) -> Result<(), AllocError>
    ensures { OnOk result (out.new.items ≡ out.old.items ++ chosen_head chooses columns.now) }
{
    if !chooses {
        return Ok(());
    }
    out.extend_from_slice(b"<th")?;
    push_rows_spanned(out, columns)?;
    out.extend_from_slice(b">chosen</th>")
}

/// Adds the head of a function above so many columns, the first of which is this one.
fn push_function_head(
    alloc: Global,
    out: &mut Vec<u8>,
    checked: &Checked,
    column: PageColumn,
    count: usize,
) -> Result<(), AllocError>
    requires { column.location < count_of (shape_of (spec_of checked.now.spec)) }
    ensures { OnOk result (out.new.items ≡ out.old.items ++ head_of_function (spec_of checked.now.spec) column count) }
{
    let function = function_at(alloc, checked, column.location)?;
    let name = function_head(alloc, checked, function)?;
    out.extend_from_slice(b"<th class=\"group\" colspan=\"")?;
    push_decimal(alloc, out, count as u64)?;
    out.extend_from_slice(b"\">")?;
    push_escaped(out, name.as_slice())?;
    out.extend_from_slice(b"</th>")
}

/// Adds the head of the function of a column, if it is the first one of that, before these columns.
fn push_if_first(
    alloc: Global,
    out: &mut Vec<u8>,
    checked: &Checked,
    column: PageColumn,
    more: &[PageColumn],
) -> Result<(), AllocError>
    requires { column.location < count_of (shape_of (spec_of checked.now.spec)) }
    ensures { OnOk result (out.new.items ≡ out.old.items ++ cond column.is_first (head_of_function (spec_of checked.now.spec) column (more_columns_of more.now + 1)) []) }
{
    if !column.is_first {
        return Ok(());
    }
    push_function_head(alloc, out, checked, column, more_of_function(more) + 1)
}

/// Adds the heads of the functions.
fn push_function_heads(
    alloc: Global,
    out: &mut Vec<u8>,
    checked: &Checked,
    columns: &[PageColumn],
) -> Result<(), AllocError>
    requires { All (λ c. c.location < count_of (shape_of (spec_of checked.now.spec))) columns.now }
    ensures { OnOk result (out.new.items ≡ out.old.items ++ function_heads (spec_of checked.now.spec) columns.now) }
{
    for k in 0..columns.len() {
        push_if_first(alloc, out, checked, columns[k], &columns[k + 1..])?;
    }
    Ok(())
}

/// Adds the arguments of each location.
fn push_arguments(
    alloc: Global,
    out: &mut Vec<u8>,
    checked: &Checked,
    columns: &[PageColumn],
) -> Result<(), AllocError>
    requires { All (λ c. c.location < count_of (shape_of (spec_of checked.now.spec))) columns.now }
    ensures { OnOk result (out.new.items ≡ out.old.items ++ flat_map (arguments_cell (spec_of checked.now.spec)) columns.now) }
{
    for k in 0..columns.len() {
        let head = arguments_head(alloc, checked, columns[k].location)?;
        push_head_cell(out, columns[k], head.as_slice())?;
    }
    Ok(())
}

/// Adds the row with the arguments, if there are columns.
fn push_arguments_row(
    alloc: Global,
    out: &mut Vec<u8>,
    checked: &Checked,
    columns: &[PageColumn],
) -> Result<(), AllocError>
    requires { All (λ c. c.location < count_of (shape_of (spec_of checked.now.spec))) columns.now }
    ensures { OnOk result (out.new.items ≡ out.old.items ++ arguments_row (spec_of checked.now.spec) columns.now) }
{
    if columns.is_empty() {
        return Ok(());
    }
    out.extend_from_slice(b"<tr>")?;
    push_arguments(alloc, out, checked, columns)?;
    out.extend_from_slice(b"</tr>\n")
}

/// Adds the row with the functions.
fn push_functions_row(
    alloc: Global,
    out: &mut Vec<u8>,
    checked: &Checked,
    chooses: bool,
    columns: &[PageColumn],
) -> Result<(), AllocError>
    requires { All (λ c. c.location < count_of (shape_of (spec_of checked.now.spec))) columns.now }
    ensures { OnOk result (out.new.items ≡ out.old.items ++ functions_row (spec_of checked.now.spec) chooses columns.now) }
{
    out.extend_from_slice(b"<tr>")?;
    push_step_head(out, columns)?;
    push_chosen_head(out, chooses, columns)?;
    push_function_heads(alloc, out, checked, columns)?;
    out.extend_from_slice(b"</tr>\n")
}

/// Adds both rows of heads.
pub(crate) fn push_table_head(
    alloc: Global,
    out: &mut Vec<u8>,
    checked: &Checked,
    chooses: bool,
    columns: &[PageColumn],
) -> Result<(), AllocError>
    requires { All (λ c. c.location < count_of (shape_of (spec_of checked.now.spec))) columns.now }
    ensures { OnOk result (out.new.items ≡ out.old.items ++ table_head (spec_of checked.now.spec) chooses columns.now) }
{
    out.extend_from_slice(b"<thead>\n")?;
    push_functions_row(alloc, out, checked, chooses, columns)?;
    push_arguments_row(alloc, out, checked, columns)?;
    out.extend_from_slice(b"</thead>\n")
}
