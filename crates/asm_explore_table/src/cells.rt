//! The cells of a row.
ghost use Rattle.std.specs.Prelude.{◌≡◌, ◌<◌, ◌++◌, OnOk};
ghost use Rattle.asm_state.specs.Operation.{is_same};
ghost use Rattle.asm_state.specs.Signature.{count_of, state_of};
ghost use Rattle.asm_state.specs.code.Contents.{IsStateOf};
ghost use Rattle.asm_syntax.specs.code.Views.{spec_of};
ghost use Rattle.asm_check.specs.Shapes.{shape_of};
ghost use Rattle.asm_explore_table.specs.Tables.{cell as cell_text, shown_value};

use asm_check::Checked;
use asm_run::locations::push_value;
use asm_state::laws::codes_rise;
use asm_state::state::State;
use asm_state::value::Value;
use asm_state::word::Word;
use std::alloc::AllocError;

/// Whether two values are the same.
pub(crate) fn is_same_value(one: Word, other: Word) -> bool
    ensures { result ≡ is_same one other }
{
    codes_rise();
    one.code() == other.code()
}

/// Adds a value, or a hyphen for one that is undef.
pub(crate) fn push_shown(
    cell: &mut Vec<u8>,
    checked: &Checked,
    value: Word,
) -> Result<(), AllocError>
    ensures { OnOk result (cell.new.items ≡ cell.old.items ++ shown_value (spec_of checked.now.spec) value) }
{
    match value.value() {
        Value::Undef => cell.extend_from_slice(b"-"),
        _ => push_value(cell, checked, value),
    }
}

/// Adds what a row shows of the location with this number: its value, or a dot if that is as it was
/// in the row before.
pub(crate) fn push_cell(
    cell: &mut Vec<u8>,
    checked: &Checked,
    before: &State,
    after: &State,
    n: usize,
) -> Result<(), AllocError>
    requires before { IsStateOf (shape_of (spec_of checked.now.spec)) before.now }
    requires after { IsStateOf (shape_of (spec_of checked.now.spec)) after.now }
    requires within { n < count_of (shape_of (spec_of checked.now.spec)) }
    ensures { let s = spec_of checked.now.spec in let shape = shape_of s in
        OnOk result (cell.new.items ≡ cell.old.items ++ cell_text s (state_of shape before.now) (state_of shape after.now) n) }
{
    let (old, new) = (before.content(n), after.content(n));
    if is_same_value(old, new) {
        return cell.extend_from_slice(b".");
    }
    push_shown(cell, checked, new)
}
