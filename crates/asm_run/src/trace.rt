//! The lines of a trace.
//!
//! `make_step` sorts the entries of a set before their lines are made. `entries_are_set` in
//! `proofs/ProperLocations.antt` proves that these lines are those of the set, location by
//! location.
ghost use Rattle.std.specs.Prelude.{◌≡◌, ◌<◌, ◌++◌, length, OnOk};
ghost use Rattle.asm_state.specs.Signature.{count_of};
ghost use Rattle.asm_syntax.specs.code.Views.{spec_of};
ghost use Rattle.asm_check.specs.Shapes.{shape_of};
ghost use Rattle.asm_run.specs.Written.{step_line, content_line, contents_text};
ghost use Rattle.asm_run.specs.code.WrittenEntries.{AreTextsOf, entries_text};

use crate::buffer::push_text;
use crate::line::Line;
use crate::location_texts::LocationTexts;
use crate::locations::{push_known_location, push_value};
use crate::update_line::push_update;
use asm_check::Checked;
use asm_state::state::State;
use asm_state::value::Value;
use asm_updates::summary::Summary;
use std::alloc::{AllocError, Global};

/// Adds the line of a location in the last state, if it is proper and isn't undef there.
fn push_line(
    alloc: Global,
    out: &mut Vec<u8>,
    checked: &Checked,
    state: &State,
    n: usize,
) -> Result<(), AllocError>
    requires whole { length state.now ≡ count_of (shape_of (spec_of checked.now.spec)) }
    requires in_range { n < length state.now }
    ensures { OnOk result (out.new.items ≡ out.old.items ++ content_line (spec_of checked.now.spec) state.now n) }
{
    let signature = checked.signature();
    if signature.stray(n).is_some() {
        return Ok(());
    }
    let value = state.content(n);
    if value.value() == Value::Undef {
        return Ok(());
    }
    let location = signature.location(alloc, n)?;
    push_known_location(out, checked, &location)?;
    push_text(out, b" = ")?;
    push_value(out, checked, value)?;
    push_text(out, b"\n")
}

/// Adds the last state.
#[tactic(auto, using(crate::proofs::TextLemmas::TextsByNumber::text_more))]
pub fn push_state(
    alloc: Global,
    out: &mut Vec<u8>,
    checked: &Checked,
    state: &State,
) -> Result<(), AllocError>
    requires { length state.now ≡ count_of (shape_of (spec_of checked.now.spec)) }
    ensures { OnOk result (out.new.items ≡ out.old.items ++ contents_text (spec_of checked.now.spec) state.now) }
{
    push_text(out, b"state\n")?;
    for n in 0..checked.signature().count() {
        push_line(alloc, out, checked, state, n)?;
    }
    Ok(())
}

/// Adds the first line of a step.
fn push_step_line(out: &mut Vec<u8>, step: u64, instances: u64) -> Result<(), AllocError>
    ensures { OnOk result (out.new.items ≡ out.old.items ++ step_line step instances) }
{
    let mut line = Line::new();
    line.text(b"\n");
    line.count(instances);
    line.text(b" instances ");
    line.count(step);
    line.text(b"step ");
    push_text(out, line.as_slice())
}

/// Adds the lines of a set, in the order of its entries.
fn push_set(
    alloc: Global,
    out: &mut Vec<u8>,
    checked: &Checked,
    texts: &mut LocationTexts,
    set: &Summary,
) -> Result<(), AllocError>
    requires sized { set.now.count ≡ count_of (shape_of (spec_of checked.now.spec)) }
    requires known { AreTextsOf (spec_of checked.now.spec) texts.old }
    ensures lines { OnOk result (out.new.items ≡ out.old.items ++ entries_text (spec_of checked.now.spec) set.now.ranges) }
    ensures known { OnOk result (AreTextsOf (spec_of checked.now.spec) texts.new) }
{
    for i in 0..set.len() {
        let (n, low, high) = set.entry_at(i);
        push_update(alloc, out, checked, texts, n, (low, high))?;
    }
    Ok(())
}

/// Adds the text of a step that is fired, with the entries of its set in their order.
pub fn push_step(
    alloc: Global,
    out: &mut Vec<u8>,
    checked: &Checked,
    texts: &mut LocationTexts,
    step: u64,
    instances: u64,
    set: &Summary,
) -> Result<(), AllocError>
    requires sized { set.now.count ≡ count_of (shape_of (spec_of checked.now.spec)) }
    requires known { AreTextsOf (spec_of checked.now.spec) texts.old }
    ensures text { OnOk result (out.new.items ≡ out.old.items ++ (step_line step instances ++ entries_text (spec_of checked.now.spec) set.now.ranges)) }
    ensures known { OnOk result (AreTextsOf (spec_of checked.now.spec) texts.new) }
{
    push_step_line(out, step, instances)?;
    push_set(alloc, out, checked, texts, set)
}
