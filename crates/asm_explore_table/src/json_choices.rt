//! What is chosen in a step, as JSON.
ghost use Rattle.std.specs.Prelude.{◌≡◌, ◌++◌, None, Some, drop, map, codes, IfOk, OnOk};
ghost use Rattle.std.specs.List.{list_any};
ghost use Rattle.std.specs.Str.{bytes_eq};
ghost use Rattle.asm_syntax.specs.code.Views.{spec_of};
ghost use Rattle.asm_explore.specs.RunChoices.{asked_said};
ghost use Rattle.asm_explore_texts.specs.code.TextPlaces.{elements_said, place_said};
ghost use Rattle.asm_explore_table.specs.JsonRows.{choice_at, choice_json, element_member, elements_json, unhidden};
ghost use Rattle.asm_explore_table.specs.JsonTexts.{list_by, member_text};
ghost use Rattle.asm_explore_table.specs.code.JsonParts.{choice_front, listed_from};

use crate::chosen_lines::{name_at, taken};
use crate::json_texts::{push_separator, push_string};
use crate::json_values::{push_named_value, push_value_json};
use asm_check::Checked;
use asm_explore::ChoicePoint;
use asm_explore_texts::rule_in_text::{PlaceInText, place_in_text};
use asm_state::word::Word;
use asm_syntax::name::Name;
use std::alloc::{AllocError, Global};

/// Whether one of the variables has this name.
fn is_among(variables: &[&Name], name: &[u8]) -> bool
    ensures { result ≡ list_any (λ variable. bytes_eq variable.now.text name.now) variables.now }
{
    variables
        .iter()
        .any(|variable| variable.text.as_bytes() == name)
}

/// Whether one of the elements has a variable of this name.
fn has_variable(variables: &[&Name], elements: &[Word], name: &[u8]) -> bool
    ensures { result ≡ list_any (λ one. bytes_eq one.0 name.now) (elements_said variables.now elements.now) }
{
    let end = variables.len().min(elements.len());
    is_among(&variables[..end], name)
}

/// Adds the first of the elements, unless a later one hides it. Whether the next one to be added is
/// the first of the object.
fn push_first_element(
    out: &mut Vec<u8>,
    text: &mut Vec<u8>,
    checked: &Checked,
    variables: &[&Name],
    elements: &[Word],
    is_first: bool,
) -> Result<bool, AllocError>
    ensures { let s = spec_of checked.now.spec in
        IfOk result (λ next. out.new.items ++ listed_from member_text next (map (element_member s) (unhidden (elements_said (drop 1 variables.now) (drop 1 elements.now))))
        ≡ out.old.items ++ listed_from member_text is_first (map (element_member s) (unhidden (elements_said variables.now elements.now)))) }
{
    let [variable, variables @ ..] = variables else {
        return Ok(is_first);
    };
    let [element, elements @ ..] = elements else {
        return Ok(is_first);
    };
    let name = variable.text.as_bytes();
    if has_variable(variables, elements, name) {
        return Ok(is_first);
    }
    push_separator(out, is_first)?;
    push_named_value(out, text, checked, name, *element)?;
    Ok(false)
}

/// Adds elements with their variables as an object, without those that are hidden.
fn push_elements(
    alloc: Global,
    out: &mut Vec<u8>,
    checked: &Checked,
    variables: &[&Name],
    elements: &[Word],
) -> Result<(), AllocError>
    ensures { OnOk result (out.new.items ≡ out.old.items ++ elements_json (spec_of checked.now.spec) (elements_said variables.now elements.now)) }
{
    let mut text = Vec::new(alloc);
    let mut is_first = true;
    out.extend_from_slice(b"{")?;
    for k in 0..variables.len().min(elements.len()) {
        is_first = push_first_element(
            out,
            &mut text,
            checked,
            &variables[k..],
            &elements[k..],
            is_first,
        )?;
    }
    out.extend_from_slice(b"}")
}

/// Adds what stands before the elements of a choice: its variable, and the value that is taken.
fn push_choice_front(
    alloc: Global,
    out: &mut Vec<u8>,
    checked: &Checked,
    name: &[u8],
    value: Word,
) -> Result<(), AllocError>
    ensures { OnOk result (out.new.items ≡ out.old.items ++ choice_front (spec_of checked.now.spec) name.now value) }
{
    let mut text = Vec::new(alloc);
    out.extend_from_slice(b"{\"name\":")?;
    push_string(out, name)?;
    out.extend_from_slice(b",\"value\":")?;
    push_value_json(out, &mut text, checked, value)?;
    out.extend_from_slice(b",\"elements\":")
}

/// Adds a choice at a place.
fn push_choice_at(
    alloc: Global,
    out: &mut Vec<u8>,
    checked: &Checked,
    place: &PlaceInText<'_>,
    value: Word,
) -> Result<(), AllocError>
    ensures { OnOk result (out.new.items ≡ out.old.items ++ choice_at (spec_of checked.now.spec) (Some (place_said place.now)) value) }
{
    let (variables, elements) = (place.variables.as_slice(), place.elements.as_slice());
    push_choice_front(alloc, out, checked, name_at(place), value)?;
    push_elements(alloc, out, checked, variables, elements)?;
    out.extend_from_slice(b"}")
}

/// Adds a choice without a place.
fn push_choice_nowhere(
    alloc: Global,
    out: &mut Vec<u8>,
    checked: &Checked,
    value: Word,
) -> Result<(), AllocError>
    ensures { OnOk result (out.new.items ≡ out.old.items ++ choice_at (spec_of checked.now.spec) None value) }
{
    push_choice_front(alloc, out, checked, b"", value)?;
    out.extend_from_slice(b"{}}")
}

/// Adds a choice.
fn push_choice(
    alloc: Global,
    out: &mut Vec<u8>,
    checked: &Checked,
    asked: &ChoicePoint,
) -> Result<(), AllocError>
    ensures { OnOk result (out.new.items ≡ out.old.items ++ choice_json (spec_of checked.now.spec) (asked_said asked.now)) }
{
    match &place_in_text(alloc, checked, asked.choice.path.as_slice())? {
        Some(place) => push_choice_at(alloc, out, checked, place, taken(asked)),
        None => push_choice_nowhere(alloc, out, checked, taken(asked)),
    }
}

/// Adds the choices of a step as a list.
pub(crate) fn push_choices(
    alloc: Global,
    out: &mut Vec<u8>,
    checked: &Checked,
    asked: &[ChoicePoint],
) -> Result<(), AllocError>
    ensures { OnOk result (out.new.items ≡ out.old.items ++ list_by (choice_json (spec_of checked.now.spec)) (map asked_said asked.now)) }
{
    out.extend_from_slice(b"[")?;
    for k in 0..asked.len() {
        push_separator(out, k == 0)?;
        push_choice(alloc, out, checked, &asked[k])?;
    }
    out.extend_from_slice(b"]")
}
