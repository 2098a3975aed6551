//! Locations and values, as a specification writes them.
ghost use Rattle.std.specs.Prelude.{◌≡◌, ◌<◌, ◌++◌, ◌↔◌, [], ◌∷◌, true, false, length, slice_index_or, IsTrue, OnOk, codes, decimal};
ghost use Rattle.asm_state.specs.Signature.{count_of, location_at, state_of};
ghost use Rattle.asm_state.specs.code.CodeLocations.{location_of};
ghost use Rattle.asm_state.specs.declared.value.Value.TheVariants.{Undef};
ghost use Rattle.asm_syntax.specs.code.Views.{spec_of};
ghost use Rattle.asm_check.specs.Shapes.{shape_of, texts_of};
ghost use Rattle.asm_check.specs.Numbers.{elements_of};
ghost use Rattle.asm_graph.specs.Labels.{arguments_text, content_lines, function_text, location_text, value_text};

use asm_check::Checked;
use asm_check::laws::signature_numbers;
use asm_state::location::Location;
use asm_state::state::State;
use asm_state::value::Value;
use asm_state::word::Word;
use std::alloc::{AllocError, Global};

/// Adds a value.
pub(crate) fn push_value(
    alloc: Global,
    label: &mut Vec<u8>,
    checked: &Checked,
    value: Word,
) -> Result<(), AllocError>
    ensures { OnOk result (label.new.items ≡ label.old.items ++ value_text (spec_of checked.now.spec) value) }
{
    match value.value() {
        Value::Undef => label.extend_from_slice(b"undef"),
        Value::Truth(false) => label.extend_from_slice(b"false"),
        Value::Truth(true) => label.extend_from_slice(b"true"),
        Value::Number(number) => {
            let number = number.value;
            let digits = format!(in alloc; "{number}")?;
            label.extend_from_slice(digits.as_bytes())
        }
        Value::Element(element) => push_element(label, checked, element.index as usize),
    }
}

/// Adds the name of the element with this number, if there is one.
fn push_element(label: &mut Vec<u8>, checked: &Checked, index: usize) -> Result<(), AllocError>
    ensures { OnOk result (label.new.items ≡ label.old.items ++ slice_index_or (texts_of (elements_of (spec_of checked.now.spec))) index []) }
{
    if index < checked.elements() {
        label.extend_from_slice(checked.element_name(index))
    } else {
        Ok(())
    }
}

/// Adds the name of the function with this number, if there is one.
fn push_function(label: &mut Vec<u8>, checked: &Checked, function: usize) -> Result<(), AllocError>
    ensures { OnOk result (label.new.items ≡ label.old.items ++ function_text (spec_of checked.now.spec) function) }
{
    signature_numbers();
    if function < checked.signature().functions() {
        label.extend_from_slice(checked.function_name(function))
    } else {
        Ok(())
    }
}

/// Adds arguments in brackets, if there are any.
fn push_arguments(
    alloc: Global,
    label: &mut Vec<u8>,
    checked: &Checked,
    arguments: &[Word],
) -> Result<(), AllocError>
    ensures { OnOk result (label.new.items ≡ label.old.items ++ arguments_text (spec_of checked.now.spec) arguments.now) }
{
    if arguments.is_empty() {
        return Ok(());
    }
    label.extend_from_slice(b"(")?;
    let mut before: &[u8] = b"";
    for argument in arguments {
        label.extend_from_slice(before)?;
        push_value(alloc, label, checked, *argument)?;
        before = b", ";
    }
    label.extend_from_slice(b")")
}

/// Adds a location.
fn push_location(
    alloc: Global,
    label: &mut Vec<u8>,
    checked: &Checked,
    location: &Location,
) -> Result<(), AllocError>
    ensures { OnOk result (label.new.items ≡ label.old.items ++ location_text (spec_of checked.now.spec) (location_of location.now)) }
{
    match location {
        Location::Stray { function } => push_function(label, checked, *function),
        Location::Proper {
            function,
            arguments,
        } => {
            push_function(label, checked, *function)?;
            push_arguments(alloc, label, checked, arguments.as_slice())
        }
    }
}

/// Whether a value is undef.
fn is_undef(value: Word) -> bool
    ensures { IsTrue result ↔ value ≡ Undef }
{
    matches!(value.value(), Value::Undef)
}

/// Whether the location with this number has a line: it is proper, and isn't undef.
pub(crate) fn is_content(checked: &Checked, state: &State, n: usize) -> bool
    requires whole { length state.now ≡ count_of (shape_of (spec_of checked.now.spec)) }
    requires in_range { n < length state.now }
    ensures shown { let s = spec_of checked.now.spec in let l = location_at (shape_of s) n in result ≡ true →
        content_lines s l (state_of (shape_of s) state.now l) ≡ (location_text s l ++ (codes " = " ++ value_text s (slice_index_or state.now n Undef))) ∷ [] }
    ensures hidden { let s = spec_of checked.now.spec in let l = location_at (shape_of s) n in result ≡ false →
        content_lines s l (state_of (shape_of s) state.now l) ≡ [] }
{
    checked.signature().stray(n).is_none() && !is_undef(state.content(n))
}

/// Adds the location with this number, and what it holds.
pub(crate) fn push_content(
    alloc: Global,
    label: &mut Vec<u8>,
    checked: &Checked,
    state: &State,
    n: usize,
) -> Result<(), AllocError>
    requires whole { length state.now ≡ count_of (shape_of (spec_of checked.now.spec)) }
    requires in_range { n < length state.now }
    ensures { let s = spec_of checked.now.spec in
        OnOk result (label.new.items ≡ label.old.items ++ (location_text s (location_at (shape_of s) n) ++ (codes " = " ++ value_text s (slice_index_or state.now n Undef)))) }
{
    let location = checked.signature().location(alloc, n)?;
    push_location(alloc, label, checked, &location)?;
    label.extend_from_slice(b" = ")?;
    push_value(alloc, label, checked, state.content(n))
}
