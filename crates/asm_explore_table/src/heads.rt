//! The heads of columns.
ghost use Rattle.std.specs.Prelude.{◌≡◌, ◌<◌, ◌++◌, All, None, codes, option_map, option_to_list, IfOk, OnOk};
ghost use Rattle.asm_state.specs.Location.{function_of as function_in};
ghost use Rattle.asm_state.specs.Signature.{count_of};
ghost use Rattle.asm_state.specs.code.CodeLocations.{location_of};
ghost use Rattle.asm_syntax.specs.code.Views.{spec_of};
ghost use Rattle.asm_check.specs.Shapes.{shape_of};
ghost use Rattle.asm_run.specs.Trace.{function_text};
ghost use Rattle.asm_run.specs.Written.{names_in};
ghost use Rattle.asm_explore_table.specs.Lines.{aligned, blanks};
ghost use Rattle.asm_explore_table.specs.Tables.{arguments_head as arguments_above, is_after as follows, joined_values, numbered, unless_blank, with_cells, with_chosen, with_functions};
ghost use Rattle.asm_explore_table.specs.code.StepsMade.{IsWithin};

use crate::block::{Block, Column};
use crate::line::{align, place, push_blanks, push_comma};
use asm_check::Checked;
use asm_run::locations::{push_function, push_value};
use asm_state::location::Location;
use asm_state::word::Word;
use std::alloc::{AllocError, Global};

/// The function of a location.
fn function_of(location: &Location) -> usize
    ensures { result ≡ function_in (location_of location.now) }
{
    match location {
        Location::Stray { function } => *function,
        Location::Proper { function, .. } => *function,
    }
}

/// Adds values with a comma between each two.
fn push_values(head: &mut Vec<u8>, checked: &Checked, values: &[Word]) -> Result<(), AllocError>
    ensures { OnOk result (head.new.items ≡ head.old.items ++ joined_values (spec_of checked.now.spec) values.now) }
{
    for k in 0..values.len() {
        push_comma(head, k)?;
        push_value(head, checked, values[k])?;
    }
    Ok(())
}

/// The arguments of the location with this number.
pub(crate) fn arguments_head(
    alloc: Global,
    checked: &Checked,
    n: usize,
) -> Result<Vec<u8>, AllocError>
    requires { n < count_of (shape_of (spec_of checked.now.spec)) }
    ensures { IfOk result (λ head. head.items ≡ arguments_above (spec_of checked.now.spec) n) }
{
    let location = checked.signature().location(alloc, n)?;
    let mut head = Vec::new(alloc);
    match &location {
        Location::Stray { .. } => {}
        Location::Proper { arguments, .. } => {
            push_values(&mut head, checked, arguments.as_slice())?
        }
    }
    Ok(head)
}

/// The number of the function of the location with this number.
pub(crate) fn function_at(alloc: Global, checked: &Checked, n: usize) -> Result<usize, AllocError>
    requires { n < count_of (shape_of (spec_of checked.now.spec)) }
    ensures { IfOk result (λ f. f ≡ function_in (numbered (spec_of checked.now.spec) n)) }
{
    let location = checked.signature().location(alloc, n)?;
    Ok(function_of(&location))
}

/// The name of the function with this number.
pub(crate) fn function_head(
    alloc: Global,
    checked: &Checked,
    function: usize,
) -> Result<Vec<u8>, AllocError>
    ensures { IfOk result (λ head. head.items ≡ function_text (names_in (spec_of checked.now.spec)) function) }
{
    let mut head = Vec::new(alloc);
    push_function(&mut head, checked, function)?;
    Ok(head)
}

/// Whether the column before is of the same function.
pub(crate) fn is_after(function: usize, before: Option<usize>) -> bool
    ensures { result ≡ follows function before }
{
    match before {
        Some(other) => function == other,
        None => false,
    }
}

/// Adds the names of the functions, each above its first column.
fn add_functions(
    alloc: Global,
    line: &mut Vec<u8>,
    checked: &Checked,
    columns: &[Column],
) -> Result<(), AllocError>
    requires { All (λ c. c.location < count_of (shape_of (spec_of checked.now.spec))) columns.now }
    ensures { OnOk result (line.new.items ≡ with_functions (spec_of checked.now.spec) None line.old.items columns.now) }
{
    let mut before = None;
    for k in 0..columns.len() {
        let function = function_at(alloc, checked, columns[k].location)?;
        if !is_after(function, before) {
            let head = function_head(alloc, checked, function)?;
            place(line, columns[k].start, head.as_slice())?;
        }
        before = Some(function);
    }
    Ok(())
}

/// Adds the arguments of each location.
fn add_arguments(
    alloc: Global,
    line: &mut Vec<u8>,
    checked: &Checked,
    columns: &[Column],
) -> Result<(), AllocError>
    requires { All (λ c. c.location < count_of (shape_of (spec_of checked.now.spec))) columns.now }
    ensures { OnOk result (line.new.items ≡ with_cells (arguments_above (spec_of checked.now.spec)) line.old.items columns.now) }
{
    for k in 0..columns.len() {
        let head = arguments_head(alloc, checked, columns[k].location)?;
        place(line, columns[k].start, head.as_slice())?;
    }
    Ok(())
}

/// Adds the word above what is chosen, if the block has it.
fn add_chosen(line: &mut Vec<u8>, chosen: Option<usize>) -> Result<(), AllocError>
    ensures { OnOk result (line.new.items ≡ with_chosen chosen line.old.items (codes "chosen")) }
{
    match chosen {
        Some(start) => place(line, start, b"chosen"),
        None => Ok(()),
    }
}

/// The line with the names of the functions.
pub(crate) fn first_head(
    alloc: Global,
    checked: &Checked,
    width: usize,
    block: &Block,
) -> Result<Vec<u8>, AllocError>
    requires { IsWithin (count_of (shape_of (spec_of checked.now.spec))) block.now }
    ensures { IfOk result (λ line. line.items ≡ with_functions (spec_of checked.now.spec) None (with_chosen block.now.chosen (aligned width (codes "step")) (codes "chosen")) block.now.columns.items) }
{
    let mut line = Vec::new(alloc);
    align(&mut line, width, b"step")?;
    add_chosen(&mut line, block.chosen)?;
    add_functions(alloc, &mut line, checked, block.columns.as_slice())?;
    Ok(line)
}

/// The line with the arguments of the locations. It has blanks alone if none has arguments.
fn arguments_line(
    alloc: Global,
    checked: &Checked,
    width: usize,
    block: &Block,
) -> Result<Vec<u8>, AllocError>
    requires { IsWithin (count_of (shape_of (spec_of checked.now.spec))) block.now }
    ensures { IfOk result (λ line. line.items ≡ with_cells (arguments_above (spec_of checked.now.spec)) (blanks width) block.now.columns.items) }
{
    let mut line = Vec::new(alloc);
    push_blanks(&mut line, width)?;
    add_arguments(alloc, &mut line, checked, block.columns.as_slice())?;
    Ok(line)
}

/// The line with the arguments of the locations, if one has any.
pub(crate) fn second_head(
    alloc: Global,
    checked: &Checked,
    width: usize,
    block: &Block,
) -> Result<Option<Vec<u8>>, AllocError>
    requires { IsWithin (count_of (shape_of (spec_of checked.now.spec))) block.now }
    ensures { IfOk result (λ head. option_to_list (option_map (λ line. line.items) head)
        ≡ unless_blank width (with_cells (arguments_above (spec_of checked.now.spec)) (blanks width) block.now.columns.items)) }
{
    let line = arguments_line(alloc, checked, width, block)?;
    if line.len() == width {
        Ok(None)
    } else {
        Ok(Some(line))
    }
}
