//! Values as JSON.
ghost use Rattle.std.specs.Prelude.{◌≡◌, ◌++◌, OnOk};
ghost use Rattle.asm_syntax.specs.code.Views.{spec_of};
ghost use Rattle.asm_explore_table.specs.JsonRows.{element_member, value_json};
ghost use Rattle.asm_explore_table.specs.JsonTexts.{member_text};

use crate::json_texts::push_string;
use asm_check::Checked;
use asm_run::locations::push_value;
use asm_state::value::Value;
use asm_state::word::Word;
use std::alloc::AllocError;

/// Adds a value as traces have it, in quotes, or null if it is undef. What `text` has is lost.
pub(crate) fn push_value_json(
    out: &mut Vec<u8>,
    text: &mut Vec<u8>,
    checked: &Checked,
    value: Word,
) -> Result<(), AllocError>
    ensures { OnOk result (out.new.items ≡ out.old.items ++ value_json (spec_of checked.now.spec) value) }
{
    match value.value() {
        Value::Undef => out.extend_from_slice(b"null"),
        _ => {
            text.clear();
            push_value(text, checked, value)?;
            push_string(out, text.as_slice())
        }
    }
}

/// Adds a name and its value as a member of an object.
pub(crate) fn push_named_value(
    out: &mut Vec<u8>,
    text: &mut Vec<u8>,
    checked: &Checked,
    name: &[u8],
    value: Word,
) -> Result<(), AllocError>
    ensures { OnOk result (out.new.items ≡ out.old.items ++ member_text (element_member (spec_of checked.now.spec) (name.now, value))) }
{
    push_string(out, name)?;
    out.extend_from_slice(b":")?;
    push_value_json(out, text, checked, value)
}
