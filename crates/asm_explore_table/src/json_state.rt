//! States as JSON.
ghost use Rattle.std.specs.Prelude.{◌≡◌, ◌<◌, ◌++◌, All, Some, option_map, IfOk, IfSome, OnOk};
ghost use Rattle.asm_state.specs.Signature.{count_of, state_of};
ghost use Rattle.asm_state.specs.code.Contents.{IsStateOf};
ghost use Rattle.asm_syntax.specs.code.Views.{spec_of};
ghost use Rattle.asm_check.specs.Shapes.{shape_of};
ghost use Rattle.asm_run.specs.Trace.{location_text};
ghost use Rattle.asm_run.specs.Written.{names_in};
ghost use Rattle.asm_explore_table.specs.JsonRows.{location_member, state_json, state_member};
ghost use Rattle.asm_explore_table.specs.JsonTexts.{member_text};
ghost use Rattle.asm_explore_table.specs.Tables.{numbered};
ghost use Rattle.asm_explore_table.specs.code.JsonParts.{IsKeyed, key_text, locations_in, more_members};

use crate::json_texts::{push_separator, push_string};
use crate::json_values::push_value_json;
use asm_check::Checked;
use asm_run::locations::{push_function, push_location};
use asm_state::location::Location;
use asm_state::state::State;
use std::alloc::{AllocError, Global};

/// A location whose values are shown, and what stands before each of them.
#[derive(Drop)]
pub(crate) struct JsonColumn {
    pub(crate) location: usize,
    pub(crate) key: Vec<u8>,
}

/// How the location with this number is written.
fn location_name(alloc: Global, checked: &Checked, n: usize) -> Result<Vec<u8>, AllocError>
    requires { n < count_of (shape_of (spec_of checked.now.spec)) }
    ensures { let s = spec_of checked.now.spec in IfOk result (λ name. name.items ≡ location_text (names_in s) (numbered s n)) }
{
    let location = checked.signature().location(alloc, n)?;
    let mut name = Vec::new(alloc);
    match &location {
        Location::Stray { function } => push_function(&mut name, checked, *function)?,
        Location::Proper {
            function,
            arguments,
        } => push_location(&mut name, checked, *function, arguments.as_slice())?,
    }
    Ok(name)
}

/// What stands before the values of the location with this number.
fn key(alloc: Global, checked: &Checked, n: usize) -> Result<Vec<u8>, AllocError>
    requires { n < count_of (shape_of (spec_of checked.now.spec)) }
    ensures { IfOk result (λ key. key.items ≡ key_text (spec_of checked.now.spec) n) }
{
    let name = location_name(alloc, checked, n)?;
    let mut key = Vec::new(alloc);
    push_string(&mut key, name.as_slice())?;
    key.extend_from_slice(b":")?;
    Ok(key)
}

/// Columns of the locations with these numbers.
pub(crate) fn json_columns(
    alloc: Global,
    checked: &Checked,
    shown: &[usize],
) -> Result<Vec<JsonColumn>, AllocError>
    requires { All (λ n. n < count_of (shape_of (spec_of checked.now.spec))) shown.now }
    ensures keyed { IfOk result (λ columns. All (IsKeyed (spec_of checked.now.spec)) columns.items) }
    ensures locations { IfOk result (λ columns. locations_in columns.items ≡ shown.now) }
{
    let mut columns = Vec::new(alloc);
    for k in 0..shown.len() {
        let key = key(alloc, checked, shown[k])?;
        columns.push(JsonColumn {
            location: shown[k],
            key,
        })?;
    }
    Ok(columns)
}

/// Adds the value of a location, behind what stands before it.
fn push_content(
    out: &mut Vec<u8>,
    text: &mut Vec<u8>,
    checked: &Checked,
    column: &JsonColumn,
    state: &State,
) -> Result<(), AllocError>
    requires column { IsKeyed (spec_of checked.now.spec) column.now }
    requires state { IsStateOf (shape_of (spec_of checked.now.spec)) state.now }
    ensures { let s = spec_of checked.now.spec in
        OnOk result (out.new.items ≡ out.old.items ++ member_text (location_member s (state_of (shape_of s) state.now) column.now.location)) }
{
    out.extend_from_slice(column.key.as_slice())?;
    push_value_json(out, text, checked, state.content(column.location))
}

/// Adds the values of the columns in a state as an object.
fn push_state(
    alloc: Global,
    out: &mut Vec<u8>,
    checked: &Checked,
    columns: &[JsonColumn],
    state: &State,
) -> Result<(), AllocError>
    requires columns { All (IsKeyed (spec_of checked.now.spec)) columns.now }
    requires state { IsStateOf (shape_of (spec_of checked.now.spec)) state.now }
    ensures { let s = spec_of checked.now.spec in
        OnOk result (out.new.items ≡ out.old.items ++ state_json s (locations_in columns.now) (state_of (shape_of s) state.now)) }
{
    let mut text = Vec::new(alloc);
    out.extend_from_slice(b"{")?;
    for k in 0..columns.len() {
        push_separator(out, k == 0)?;
        push_content(out, &mut text, checked, &columns[k], state)?;
    }
    out.extend_from_slice(b"}")
}

/// Adds a state as a member of a row.
pub(crate) fn push_state_member(
    alloc: Global,
    out: &mut Vec<u8>,
    checked: &Checked,
    columns: &[JsonColumn],
    state: &State,
) -> Result<(), AllocError>
    requires columns { All (IsKeyed (spec_of checked.now.spec)) columns.now }
    requires state { IsStateOf (shape_of (spec_of checked.now.spec)) state.now }
    ensures { let s = spec_of checked.now.spec in
        OnOk result (out.new.items ≡ out.old.items ++ more_members (state_member s (locations_in columns.now) (Some (state_of (shape_of s) state.now)))) }
{
    out.extend_from_slice(b",\"state\":")?;
    push_state(alloc, out, checked, columns, state)
}

/// Adds the state after a step as a member of its row, unless the run ends in the step.
pub(crate) fn push_state_after(
    alloc: Global,
    out: &mut Vec<u8>,
    checked: &Checked,
    columns: &[JsonColumn],
    after: &Option<State>,
) -> Result<(), AllocError>
    requires columns { All (IsKeyed (spec_of checked.now.spec)) columns.now }
    requires after { IfSome after.now (IsStateOf (shape_of (spec_of checked.now.spec))) }
    ensures { let s = spec_of checked.now.spec in
        OnOk result (out.new.items ≡ out.old.items ++ more_members (state_member s (locations_in columns.now) (option_map (state_of (shape_of s)) after.now))) }
{
    match after {
        Some(state) => push_state_member(alloc, out, checked, columns, state),
        None => Ok(()),
    }
}
