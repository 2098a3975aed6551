//! The line of an update.
ghost use Rattle.std.specs.Prelude.{◌≡◌, ◌<◌, ◌++◌, [], slice_index_or, OnOk, codes};
ghost use Rattle.std.specs.Fmt.{signed_decimal};
ghost use Rattle.asm_state.specs.Signature.{count_of};
ghost use Rattle.asm_syntax.specs.code.Views.{spec_of};
ghost use Rattle.asm_check.specs.Shapes.{shape_of};
ghost use Rattle.asm_run.specs.Trace.{line_end};
ghost use Rattle.asm_run.specs.Written.{assigned_text, names_in, text_of_location};
ghost use Rattle.asm_run.specs.code.WrittenEntries.{AreTextsOf, entry_line};

use crate::buffer::push_text;
use crate::line::Line;
use crate::location_texts::LocationTexts;
use crate::locations::{push_element, push_known_location};
use asm_check::Checked;
use asm_state::value::Value;
use asm_state::word::Word;
use std::alloc::{AllocError, Global};

/// Adds the text of a location, made anew, and keeps it.
#[inline(never)]
fn push_new_location(
    alloc: Global,
    out: &mut Vec<u8>,
    checked: &Checked,
    texts: &mut LocationTexts,
    n: usize,
) -> Result<(), AllocError>
    requires in_range { n < count_of (shape_of (spec_of checked.now.spec)) }
    requires known { AreTextsOf (spec_of checked.now.spec) texts.old }
    ensures text { OnOk result (out.new.items ≡ out.old.items ++ text_of_location (spec_of checked.now.spec) n) }
    ensures known { OnOk result (AreTextsOf (spec_of checked.now.spec) texts.new) }
{
    let location = checked.signature().location(alloc, n)?;
    let start = out.len();
    push_known_location(out, checked, &location)?;
    let (_, text) = out.as_slice().split_at(start);
    texts.keep(n, text)
}

/// Adds the text of a location: a copy, except when it is shown for the first time.
#[inline(always)]
fn push_shown_location(
    alloc: Global,
    out: &mut Vec<u8>,
    checked: &Checked,
    texts: &mut LocationTexts,
    n: usize,
) -> Result<(), AllocError>
    requires in_range { n < count_of (shape_of (spec_of checked.now.spec)) }
    requires known { AreTextsOf (spec_of checked.now.spec) texts.old }
    ensures text { OnOk result (out.new.items ≡ out.old.items ++ text_of_location (spec_of checked.now.spec) n) }
    ensures known { OnOk result (AreTextsOf (spec_of checked.now.spec) texts.new) }
{
    let text = texts.get(n);
    if text.is_empty() {
        push_new_location(alloc, out, checked, texts, n)
    } else {
        push_text(out, text)
    }
}

/// Adds a number after the sign of an assignment, and ends the line.
#[inline(always)]
fn push_assigned_number(out: &mut Vec<u8>, number: i64) -> Result<(), AllocError>
    ensures { OnOk result (out.new.items ≡ out.old.items ++ (codes " := " ++ (signed_decimal number ++ line_end))) }
{
    let mut line = Line::new();
    line.text(b"\n");
    line.number(number);
    line.text(b" := ");
    push_text(out, line.as_slice())
}

/// The same with the name of an element.
fn push_assigned_element(
    out: &mut Vec<u8>,
    checked: &Checked,
    index: usize,
) -> Result<(), AllocError>
    ensures { let names = names_in (spec_of checked.now.spec) in
        OnOk result (out.new.items ≡ out.old.items ++ (codes " := " ++ (slice_index_or names.elements index [] ++ line_end))) }
{
    push_text(out, b" := ")?;
    push_element(out, checked, index)?;
    push_text(out, b"\n")
}

/// The same with any value.
#[inline(always)]
fn push_assigned(out: &mut Vec<u8>, checked: &Checked, value: Word) -> Result<(), AllocError>
    ensures { OnOk result (out.new.items ≡ out.old.items ++ assigned_text (spec_of checked.now.spec) value) }
{
    match value.value() {
        Value::Undef => push_text(out, b" := undef\n"),
        Value::Truth(false) => push_text(out, b" := false\n"),
        Value::Truth(true) => push_text(out, b" := true\n"),
        Value::Number(number) => push_assigned_number(out, number.value),
        Value::Element(element) => push_assigned_element(out, checked, element.index as usize),
    }
}

/// Adds the line of an update of a location.
#[inline(always)]
pub(crate) fn push_update(
    alloc: Global,
    out: &mut Vec<u8>,
    checked: &Checked,
    texts: &mut LocationTexts,
    n: usize,
    bounds: (Word, Word),
) -> Result<(), AllocError>
    requires in_range { n < count_of (shape_of (spec_of checked.now.spec)) }
    requires known { AreTextsOf (spec_of checked.now.spec) texts.old }
    ensures line { OnOk result (out.new.items ≡ out.old.items ++ entry_line (spec_of checked.now.spec) (n, bounds)) }
    ensures known { OnOk result (AreTextsOf (spec_of checked.now.spec) texts.new) }
{
    push_shown_location(alloc, out, checked, texts, n)?;
    push_assigned(out, checked, bounds.0)
}
