//! The rows of a run as lines of JSON.
ghost use Rattle.std.specs.Prelude.{◌≡◌, ◌++◌, [], All, Some, map, option_map, IfSome, OnOk};
ghost use Rattle.asm_state.specs.Signature.{state_of};
ghost use Rattle.asm_state.specs.code.Contents.{IsStateOf};
ghost use Rattle.asm_syntax.specs.code.Views.{spec_of};
ghost use Rattle.asm_check.specs.Shapes.{shape_of};
ghost use Rattle.asm_meaning.specs.Declarations.{specification_of};
ghost use Rattle.asm_step.specs.code.Steps.{HasMainRule};
ghost use Rattle.asm_explore.specs.RunChoices.{asked_said};
ghost use Rattle.asm_explore_table.specs.JsonRows.{row_json, rows_json};
ghost use Rattle.asm_explore_table.specs.Rows.{rows_of};
ghost use Rattle.asm_explore_table.specs.code.JsonParts.{IsKeyed, locations_in, row_front};

use crate::json_choices::push_choices;
use crate::json_state::{JsonColumn, push_state_after, push_state_member};
use crate::step_row::{StepRow, step_row};
use asm_check::Checked;
use asm_explore::ChoicePoint;
use asm_reader::Picks;
use asm_state::state::State;
use asm_step::ResolvedSpecification;
use std::alloc::{AllocError, Global};

/// Adds what stands before the state of a row: the number of the step, and what is chosen in it.
fn push_row_front(
    alloc: Global,
    out: &mut Vec<u8>,
    checked: &Checked,
    number: u64,
    asked: &[ChoicePoint],
) -> Result<(), AllocError>
    ensures { OnOk result (out.new.items ≡ out.old.items ++ row_front (spec_of checked.now.spec) number (map asked_said asked.now)) }
{
    let digits = format!(in alloc; "{number}")?;
    out.extend_from_slice(b"{\"step\":")?;
    out.extend_from_slice(digits.as_bytes())?;
    out.extend_from_slice(b",\"chosen\":")?;
    push_choices(alloc, out, checked, asked)
}

/// Adds the row of the first state.
fn add_first_row(
    alloc: Global,
    out: &mut Vec<u8>,
    checked: &Checked,
    columns: &[JsonColumn],
    state: &State,
) -> Result<(), AllocError>
    requires columns { All (IsKeyed (spec_of checked.now.spec)) columns.now }
    requires state { IsStateOf (shape_of (spec_of checked.now.spec)) state.now }
    ensures { let s = spec_of checked.now.spec in
        OnOk result (out.new.items ≡ out.old.items ++ row_json s (locations_in columns.now) 0 [] (Some (state_of (shape_of s) state.now))) }
{
    push_row_front(alloc, out, checked, 0, &[])?;
    push_state_member(alloc, out, checked, columns, state)?;
    out.extend_from_slice(b"}\n")
}

/// Adds the row of a step: what is chosen in it, and the state after it, if the run goes on.
fn add_row(
    alloc: Global,
    out: &mut Vec<u8>,
    checked: &Checked,
    columns: &[JsonColumn],
    number: u64,
    row: &StepRow,
) -> Result<(), AllocError>
    requires columns { All (IsKeyed (spec_of checked.now.spec)) columns.now }
    requires after { IfSome row.now.next (IsStateOf (shape_of (spec_of checked.now.spec))) }
    ensures { let s = spec_of checked.now.spec in
        OnOk result (out.new.items ≡ out.old.items ++ row_json s (locations_in columns.now) number (map asked_said row.now.asked.items) (option_map (state_of (shape_of s)) row.now.next)) }
{
    push_row_front(alloc, out, checked, number, row.asked.as_slice())?;
    push_state_after(alloc, out, checked, columns, &row.next)?;
    out.extend_from_slice(b"}\n")
}

/// Adds the rows of a run of at most `steps` steps, that of the first state first.
pub(crate) fn add_rows<P: Picks>(
    alloc: Global,
    out: &mut Vec<u8>,
    resolved: &ResolvedSpecification<'_>,
    script: &P,
    steps: u32,
    columns: &[JsonColumn],
) -> Result<(), AllocError>
    requires main { HasMainRule resolved.now }
    requires columns { All (IsKeyed (spec_of resolved.now.checked.now.spec)) columns.now }
    ensures { let m = resolved.now in let s = spec_of m.checked.now.spec in let shown = locations_in columns.now in
        OnOk result (out.new.items ≡ out.old.items
        ++ (row_json s shown 0 [] (Some (specification_of s).initial) ++ rows_json s shown 1 (rows_of s m.turns (P.script script.now) steps))) }
{
    let checked = resolved.checked;
    let mut state = State::initial(alloc, checked.signature())?;
    add_first_row(alloc, out, checked, columns, &state)?;
    for done in 0..steps {
        let number = u64::from(done) + 1;
        let row = step_row(alloc, resolved, script, number, &state)?;
        add_row(alloc, out, checked, columns, number, &row)?;
        match row.into_next() {
            Some(next) => state = next,
            None => return Ok(()),
        }
    }
    Ok(())
}
