//! Where the variable of a `choose` is in the text.
ghost use Rattle.std.specs.Prelude.{IfOk, IfSome};
ghost use Rattle.asm_explore_texts.specs.Positions.{IsNameAt};

use crate::position_text::is_name_at;
use crate::rule_in_text::rule_in_text;
use asm_check::Checked;
use asm_syntax::rule::Rule;
use std::alloc::{AllocError, Global};

/// The offset of the variable of the `choose` at a path of the main rule, if the text has a whole
/// name there.
pub fn variable_at(
    alloc: Global,
    text: &[u8],
    checked: &Checked,
    path: &[u64],
) -> Result<Option<usize>, AllocError>
    ensures { IfOk result (λ found. IfSome found (IsNameAt text.now)) }
{
    let Some(place) = rule_in_text(alloc, checked, path)? else {
        return Ok(None);
    };
    match place.rule {
        Rule::Choose { name, .. } if is_name_at(text, name.at) => Ok(Some(name.at)),
        _ => Ok(None),
    }
}
