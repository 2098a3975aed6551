//! How values, locations and paths are written.
ghost use Rattle.std.specs.Prelude.{◌≡◌, ◌<◌, ◌++◌, [], length, slice_index_or, OnOk};
ghost use Rattle.asm_state.specs.Location.{Proper, function_of};
ghost use Rattle.asm_state.specs.code.CodeLocations.{location_of};
ghost use Rattle.asm_syntax.specs.code.Views.{spec_of};
ghost use Rattle.asm_check.specs.Numbers.{functions_of};
ghost use Rattle.asm_run.specs.Trace.{value_text, values_text, function_text, location_text, numbers_text, path_text};
ghost use Rattle.asm_run.specs.Written.{names_in};
ghost use Rattle.asm_run.specs.code.PartTexts.{arguments_text};

use crate::buffer::{push_count, push_number, push_text};
use asm_check::Checked;
use asm_check::laws::signature_numbers;
use asm_state::location::Location;
use asm_state::value::Value;
use asm_state::word::Word;
use std::alloc::AllocError;

/// Adds a value.
pub fn push_value(out: &mut Vec<u8>, checked: &Checked, value: Word) -> Result<(), AllocError>
    ensures { let names = names_in (spec_of checked.now.spec) in
        OnOk result (out.new.items ≡ out.old.items ++ value_text names.elements value) }
{
    match value.value() {
        Value::Undef => push_text(out, b"undef"),
        Value::Truth(false) => push_text(out, b"false"),
        Value::Truth(true) => push_text(out, b"true"),
        Value::Number(number) => push_number(out, number.value),
        Value::Element(element) => push_element(out, checked, element.index as usize),
    }
}

/// Adds the name of the element with this number, if there is one.
pub(crate) fn push_element(
    out: &mut Vec<u8>,
    checked: &Checked,
    index: usize,
) -> Result<(), AllocError>
    ensures { let names = names_in (spec_of checked.now.spec) in
        OnOk result (out.new.items ≡ out.old.items ++ slice_index_or names.elements index []) }
{
    if index < checked.elements() {
        push_text(out, checked.element_name(index))
    } else {
        Ok(())
    }
}

/// Adds the name of the function with this number, if there is one.
pub fn push_function(
    out: &mut Vec<u8>,
    checked: &Checked,
    function: usize,
) -> Result<(), AllocError>
    ensures { let names = names_in (spec_of checked.now.spec) in
        OnOk result (out.new.items ≡ out.old.items ++ function_text names function) }
{
    signature_numbers();
    if function < checked.signature().functions() {
        push_known_function(out, checked, function)
    } else {
        Ok(())
    }
}

/// Adds the name of the function with this number.
fn push_known_function(
    out: &mut Vec<u8>,
    checked: &Checked,
    function: usize,
) -> Result<(), AllocError>
    requires { function < length (functions_of (spec_of checked.now.spec)) }
    ensures { let names = names_in (spec_of checked.now.spec) in
        OnOk result (out.new.items ≡ out.old.items ++ function_text names function) }
{
    push_text(out, checked.function_name(function))
}

/// Adds the arguments that follow a first one.
fn push_values(
    out: &mut Vec<u8>,
    checked: &Checked,
    first: Word,
    rest: &[Word],
) -> Result<(), AllocError>
    ensures { let names = names_in (spec_of checked.now.spec) in
        OnOk result (out.new.items ≡ out.old.items ++ values_text names.elements first rest.now) }
{
    push_value(out, checked, first)?;
    for value in rest {
        push_text(out, b", ")?;
        push_value(out, checked, *value)?;
    }
    Ok(())
}

/// Adds the arguments of a function, if there are any.
#[inline(always)]
fn push_arguments(
    out: &mut Vec<u8>,
    checked: &Checked,
    arguments: &[Word],
) -> Result<(), AllocError>
    ensures { let names = names_in (spec_of checked.now.spec) in
        OnOk result (out.new.items ≡ out.old.items ++ arguments_text names arguments.now) }
{
    match arguments {
        [] => Ok(()),
        [first, rest @ ..] => {
            push_text(out, b"(")?;
            push_values(out, checked, *first, rest)?;
            push_text(out, b")")
        }
    }
}

/// Adds the location of the function with this number that has these arguments: the name of the
/// function, if there is one, and after it the arguments, if there are any.
pub fn push_location(
    out: &mut Vec<u8>,
    checked: &Checked,
    function: usize,
    arguments: &[Word],
) -> Result<(), AllocError>
    ensures { let names = names_in (spec_of checked.now.spec) in
        OnOk result (out.new.items ≡ out.old.items ++ location_text names (Proper function arguments.now)) }
{
    push_function(out, checked, function)?;
    push_arguments(out, checked, arguments)
}

/// Adds a location of a function that the specification has, or the name of the function alone if
/// it is stray.
pub(crate) fn push_known_location(
    out: &mut Vec<u8>,
    checked: &Checked,
    location: &Location,
) -> Result<(), AllocError>
    requires { function_of (location_of location.now) < length (functions_of (spec_of checked.now.spec)) }
    ensures { let names = names_in (spec_of checked.now.spec) in
        OnOk result (out.new.items ≡ out.old.items ++ location_text names (location_of location.now)) }
{
    match location {
        Location::Stray { function } => push_known_function(out, checked, *function),
        Location::Proper {
            function,
            arguments,
        } => {
            push_known_function(out, checked, *function)?;
            push_arguments(out, checked, arguments.as_slice())
        }
    }
}

/// Adds a path: its numbers with dots between them, or a hyphen if it has none.
pub fn push_path(out: &mut Vec<u8>, path: &[u64]) -> Result<(), AllocError>
    ensures { OnOk result (out.new.items ≡ out.old.items ++ path_text path.now) }
{
    match path {
        [] => push_text(out, b"-"),
        [first, rest @ ..] => push_numbers(out, *first, rest),
    }
}

/// Adds the numbers of a path that has any.
fn push_numbers(out: &mut Vec<u8>, first: u64, rest: &[u64]) -> Result<(), AllocError>
    ensures { OnOk result (out.new.items ≡ out.old.items ++ numbers_text first rest.now) }
{
    push_count(out, first)?;
    for i in 0..rest.len() {
        push_text(out, b".")?;
        push_count(out, rest[i])?;
    }
    Ok(())
}
