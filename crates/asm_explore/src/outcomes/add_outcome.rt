//! Adds an outcome to a list.
ghost use Rattle.std.specs.Prelude.{◌≡◌, ◌≤◌, length, IfErr, OnOk};
ghost use Rattle.asm_explore.specs.code.OverLimit.{IfTooMany};
ghost use Rattle.asm_explore.specs.code.OutcomeLists.{ListGrows};

use crate::outcomes::list_error::ListError;
use crate::outcomes::listed_outcome::ListedOutcome;
use crate::same_result::{is_known, link_last};

/// Adds an outcome, unless its result is there.
pub(crate) fn add_outcome(
    found: &mut Vec<ListedOutcome>,
    one: ListedOutcome,
    limit: usize,
) -> Result<(), ListError>
    ensures grows { OnOk result (ListGrows found.old.items one found.new.items) }
    ensures full { IfErr result (IfTooMany (limit ≤ length found.old.items)) }
    ensures kept { IfErr result (IfTooMany (found.new.items ≡ found.old.items)) }
{
    if is_known(found.as_slice(), &one) {
        return Ok(());
    }
    if found.len() >= limit {
        return Err(ListError::TooMany);
    }
    found.push(one)?;
    link_last(found);
    Ok(())
}
