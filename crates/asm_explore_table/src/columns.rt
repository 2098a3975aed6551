//! The locations that are columns of a table.
ghost use Rattle.std.specs.Prelude.{◌≡◌, ◌<◌, ◌&&◌, ◌∷◌, ◌++◌, [], All, cond, false, filter, slice_index_or, take, IfOk, OnOk};
ghost use Rattle.std.specs.List.{list_any, range_with_len};
ghost use Rattle.std.specs.Str.{bytes_eq};
ghost use Rattle.asm_state.specs.Location.{Proper};
ghost use Rattle.asm_state.specs.Signature.{count_of};
ghost use Rattle.asm_state.specs.Updates.{is_proper};
ghost use Rattle.asm_state.specs.code.CodeLocations.{location_of};
ghost use Rattle.asm_syntax.specs.code.Views.{spec_of};
ghost use Rattle.asm_check.specs.Shapes.{shape_of};
ghost use Rattle.asm_explore_table.specs.Tables.{is_named as is_one_named, most_columns, numbered, shown_columns};
ghost use Rattle.asm_explore_table.specs.code.Extents.{HasRoom};
ghost use Rattle.asm_explore_table.specs.code.StepsMade.{column_by, names_said};

use crate::extent::Extent;
use asm_check::Checked;
use asm_run::locations::{push_function, push_location};
use asm_state::location::Location;
use asm_state::word::Word;
use std::alloc::{AllocError, Global};

/// At most so many locations are columns, unless they are named.
pub(crate) const MAX_COLUMNS: usize = 200;

/// Whether one of the names is this text.
fn is_among(names: &[&str], text: &[u8]) -> bool
    ensures { result ≡ list_any (λ name. bytes_eq name.now text.now) names.now }
{
    names.iter().any(|name| name.as_bytes() == text)
}

/// Whether one of the names is that of the location with these arguments, or of its function.
fn is_proper_named(
    alloc: Global,
    checked: &Checked,
    names: &[&str],
    function: usize,
    arguments: &[Word],
) -> Result<bool, AllocError>
    ensures { IfOk result (λ named. named ≡ is_one_named (spec_of checked.now.spec) (names_said names.now) (Proper function arguments.now)) }
{
    let mut text = Vec::new(alloc);
    push_function(&mut text, checked, function)?;
    if is_among(names, text.as_slice()) {
        return Ok(true);
    }
    text.clear();
    push_location(&mut text, checked, function, arguments)?;
    Ok(is_among(names, text.as_slice()))
}

/// Whether one of the names is that of this location, or of its function.
pub fn is_named(
    alloc: Global,
    checked: &Checked,
    names: &[&str],
    location: &Location,
) -> Result<bool, AllocError>
    ensures { let l = location_of location.now in
        IfOk result (λ named. named ≡ (is_proper l && is_one_named (spec_of checked.now.spec) (names_said names.now) l)) }
{
    match location {
        Location::Proper {
            function,
            arguments,
        } => is_proper_named(alloc, checked, names, *function, arguments.as_slice()),
        Location::Stray { .. } => Ok(false),
    }
}

/// Whether the location with this number is a column: one that is named, or without names one that
/// changes.
fn is_column(
    alloc: Global,
    checked: &Checked,
    names: &[&str],
    extent: &Extent,
    n: usize,
) -> Result<bool, AllocError>
    requires whole { HasRoom (count_of (shape_of (spec_of checked.now.spec))) extent.now }
    requires within { n < count_of (shape_of (spec_of checked.now.spec)) }
    ensures { let s = spec_of checked.now.spec in
        IfOk result (λ is. is ≡ column_by s (names_said names.now) (slice_index_or extent.now.changed.items n false) (numbered s n)) }
{
    if names.is_empty() {
        return Ok(extent.changed[n] && checked.signature().stray(n).is_none());
    }
    let location = checked.signature().location(alloc, n)?;
    is_named(alloc, checked, names, &location)
}

/// Adds a number, if it is that of a column.
fn push_if(columns: &mut Vec<usize>, n: usize, is_column: bool) -> Result<(), AllocError>
    ensures { OnOk result (columns.new.items ≡ columns.old.items ++ cond is_column (n ∷ []) []) }
{
    if is_column {
        columns.push(n)?;
    }
    Ok(())
}

/// The numbers of the locations that are columns, in their order.
pub(crate) fn columns(
    alloc: Global,
    checked: &Checked,
    names: &[&str],
    extent: &Extent,
) -> Result<Vec<usize>, AllocError>
    requires { HasRoom (count_of (shape_of (spec_of checked.now.spec))) extent.now }
    ensures are { let s = spec_of checked.now.spec in
        IfOk result (λ columns. columns.items ≡ filter (λ n. column_by s (names_said names.now) (slice_index_or extent.now.changed.items n false) (numbered s n)) (range_with_len 0 (count_of (shape_of s)))) }
    ensures within { let s = spec_of checked.now.spec in IfOk result (λ columns. All (λ n. n < count_of (shape_of s)) columns.items) }
{
    let mut columns = Vec::new(alloc);
    for n in 0..checked.signature().count() {
        let is_column = is_column(alloc, checked, names, extent, n)?;
        push_if(&mut columns, n, is_column)?;
    }
    Ok(columns)
}

/// The first columns.
fn front(columns: &[usize]) -> &[usize]
    ensures { result.now ≡ take most_columns columns.now }
{
    if columns.len() <= MAX_COLUMNS {
        columns
    } else {
        &columns[..MAX_COLUMNS]
    }
}

/// The columns that are shown.
pub(crate) fn shown<'c>(names: &[&str], columns: &'c [usize]) -> &'c [usize]
    ensures { result.now ≡ shown_columns (names_said names.now) columns.now }
{
    match names {
        [] => front(columns),
        _ => columns,
    }
}
